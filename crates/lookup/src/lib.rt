// Where a word stands in a book: a pass over the records of a buffer that is opened.
#![tactic(auto)]

ghost use Rattle.std.specs.Prelude.{◌≡◌, ◌&&◌, map, ◌+◌, ◌≤◌, ◌<◌, T, eqb, length, get_or, take, drop};
ghost use Rattle.formula.specs.Lists.{same_list};
ghost use Rattle.entries.specs.Limits.{book_limit, head_size};
ghost use Rattle.entries.specs.Entries.{value_of, word_at, entry_at, is_framed};
ghost use Rattle.entries.specs.Book.{Opened};
ghost use Rattle.lookup.specs.Look.{LocateRight, LookRight};

use book_check::open::open_book;
use book_check::record::{Record, word_of};
use book_frame::value_of;
use refusals::Refusal;

// What is told of a live record: its stock number, and the place where it starts.
#[derive(Clone, Copy)]
pub struct Found {
    pub stock: u32,
    pub start: usize,
}

// What a book says of a word: the word's live record, or that there is none, with the first free byte and the live length.
#[derive(Clone, Copy)]
pub enum Look {
    Live(Found),
    Missing { free: usize, length: usize },
}

// Whether bytes are those of a word.
fn is_word(bytes: &[u8], word: &[u16]) -> bool
    ensures { result ≡ same_list (map value_of bytes.now) word.now }
{
    if bytes.len() != word.len() {
        return false;
    }
    bytes
        .iter()
        .zip(word)
        .all(|(byte, value)| value_of(*byte) == *value)
}

// Whether the record at a place has the word.
fn has_word(book: &[u8], at: usize, word: &[u16]) -> bool
    requires { (length book.now ≤ book_limit) × T (is_framed book.now at) }
    ensures { result ≡ same_list (word_at book.now at) word.now }
{
    is_word(word_of(book, at), word)
}

// The stock number of the record at a place, low byte first.
pub fn stock_at(book: &[u8], at: usize) -> u32
    requires { (length book.now ≤ book_limit) × (at + head_size ≤ length book.now) }
    ensures { result ≡ (entry_at book.now at).stock }
{
    u32::from_le_bytes([book[at + 3], book[at + 4], book[at + 5], book[at + 6]])
}

// Looks for the word among the live records of a book, and adds up the bytes of those that it passes.
fn locate(book: &[u8], free: usize, word: &[u16]) -> Look
    requires { Opened book.now free }
    ensures { LocateRight book.now word.now result }
{
    let mut at = 0;
    let mut length = 0;
    while at < free {
        let record = Record::at(book, at);
        if record.live {
            if has_word(book, at, word) {
                let stock = stock_at(book, at);
                return Look::Live(Found { stock, start: at });
            }
            length += record.size;
        }
        at += record.size;
    }
    Look::Missing { free, length }
}

// Opens the buffer and looks for the word.
pub fn look_up(book: &[u8], word: &[u16]) -> Result<Look, Refusal>
    ensures { LookRight book.now word.now result }
{
    let opening = open_book(book)?;
    Ok(locate(book, opening.free, word))
}
