// The record at a place of a buffer: its mark, its count, and whether its word is readable.
#![tactic(auto)]

ghost use Rattle.std.specs.Prelude.{◌≡◌, ◌&&◌, ◌++◌, map, ◌+◌, ◌≤◌, ◌<◌, eqb, length, get_or, take, drop};
ghost use Rattle.formula.specs.Limits.{limit};
ghost use Rattle.entries.specs.Limits.{book_limit};
ghost use Rattle.entries.specs.Readable.{is_readable};
ghost use Rattle.entries.specs.Entries.{value_of, word_at, is_framed};

use formula::Word;
use recogniser::walk::is_row;

// The bytes of a record before its word: its mark, its count and its stock number.
pub const HEAD: usize = 7;

// The value that a byte of a record stands for.
pub fn value_of(byte: u8) -> u16
    ensures { result ≡ value_of byte }
{
    u16::from(byte) + 0x1000
}

// Whether the two bytes of a mark stand at a place.
pub fn has_mark(book: &[u8], at: usize, mark: &[u8; 2]) -> bool
    requires { at + 2 ≤ length book.now }
    ensures { result ≡ (eqb (get_or book.now at 0) (get_or mark.now 0 0) && eqb (get_or book.now (at + 1) 0) (get_or mark.now 1 0)) }
{
    (book[at] == mark[0]) & (book[at + 1] == mark[1])
}

// Whether a mark and a count stand at a place, and the record that they begin ends within the buffer.
#[tactic(auto, using(crate::proofs::Framing::none_framed))]
fn is_framed(book: &[u8], at: usize) -> bool
    requires { (length book.now ≤ book_limit) × (at ≤ length book.now) }
    ensures { result ≡ is_framed book.now at }
{
    if book.len() - at < 8 {
        return false;
    }
    if !has_mark(book, at, b"MW") && !has_mark(book, at, b"M-") {
        return false;
    }
    let count = usize::from(book[at + 2]);
    if count < 1 {
        return false;
    }
    if Word::LIMIT < count {
        return false;
    }
    HEAD + count <= book.len() - at
}

// Puts the values of `count` bytes, from a place on, at the front of `output`.
pub fn copy_values(book: &[u8], from: usize, count: usize, output: &mut [u16])
    requires { (from + count ≤ length book.now) × (count ≤ length output.old) }
    ensures { output.new ≡ map value_of (take count (drop from book.now)) ++ drop count output.old }
{
    for (place, byte) in book[from..from + count].iter().enumerate() {
        output[place] = value_of(*byte);
    }
}

// The values of some bytes.
pub fn values_of(book: &[u8], from: usize, count: usize) -> [u16; Word::LIMIT]
    requires { (count ≤ limit) × (from + count ≤ length book.now) }
    ensures { (take count result ≡ map value_of (take count (drop from book.now))) × (length result ≡ limit) }
{
    let mut values = [0u16; Word::LIMIT];
    copy_values(book, from, count, &mut values);
    values
}

// Whether a record with a readable word stands at a place.
pub fn is_record(book: &[u8], at: usize) -> bool
    requires { (length book.now ≤ book_limit) × (at ≤ length book.now) }
    ensures { result ≡ (is_framed book.now at && is_readable (word_at book.now at)) }
{
    if !is_framed(book, at) {
        return false;
    }
    let count = usize::from(book[at + 2]);
    let values = values_of(book, at + HEAD, count);
    is_row(&values[..count])
}
