// The record that starts at a place of a book: its word, its stock number, and whether it is live.
#![tactic(auto)]

ghost use Rattle.std.specs.Prelude.{◌≡◌, ◌≤◌, T, length, IfOk};
ghost use Rattle.refusals.specs.Outcome.{outcome_by, tells_if_there};
ghost use Rattle.entries.specs.Limits.{book_limit};
ghost use Rattle.entries.specs.Entries.{is_framed, entry_at};
ghost use Rattle.entries.specs.Book.{Opened};
ghost use Rattle.book_word.specs.WordAt.{marked_count, record_told, Few, FewTold, StartRight, ToldRight, WordRight};

use book_check::open::open_book;
use book_check::record::Record;
use book_frame::{HEAD, copy_values};
use lookup::stock_at;
use refusals::Refusal;

// What is told of a record: its stock number, how many values its word has, and whether it is live.
#[derive(Clone, Copy)]
pub struct RecordTold {
    pub stock: u32,
    pub count: u8,
    pub live: bool,
}

// What the number of a word's values is raised by where its record is live. No word has so many values.
const LIVE_MARK: usize = 256;

impl RecordTold {
    // One number for how many values the word has, and for whether its record is live.
    pub fn marked_count(self) -> usize
        ensures { result ≡ marked_count self.live self.count }
    {
        let count = usize::from(self.count);
        if self.live { count + LIVE_MARK } else { count }
    }
}

// Whether a record of a book starts at a place.
fn is_start(book: &[u8], free: usize, start: usize) -> bool
    requires { Opened book.now free }
    ensures { StartRight book.now start result }
{
    let mut at = 0;
    while at < free {
        if at == start {
            return true;
        }
        at += Record::at(book, at).size;
    }
    false
}

// Writes the word of the record at a place to the front of `output`, where there is room for it, and tells of the record.
fn tell_record(book: &[u8], at: usize, output: &mut [u16]) -> Result<RecordTold, Refusal>
    requires { (length book.now ≤ book_limit) × T (is_framed book.now at) }
    ensures right { ToldRight (entry_at book.now at) output.old output.new (outcome_by record_told result) }
    ensures few { IfOk result Few }
{
    let count = book[at + 2];
    let size = usize::from(count);
    if output.len() < size {
        return Err(Refusal::OutputTooShort(size));
    }
    copy_values(book, at + HEAD, size, output);
    let stock = stock_at(book, at);
    let live = Record::at(book, at).live;
    Ok(RecordTold { stock, count, live })
}

// Writes the word of the record that starts at `start` to the front of `output`, and tells of the record, if there is one.
pub fn word_at(book: &[u8], start: usize, output: &mut [u16]) -> Result<Option<RecordTold>, Refusal>
    ensures right { WordRight book.now start output.old output.new (outcome_by (tells_if_there record_told) result) }
    ensures few { FewTold result }
{
    let opening = open_book(book)?;
    if !is_start(book, opening.free, start) {
        return Ok(None);
    }
    let told = tell_record(book, start, output)?;
    Ok(Some(told))
}
