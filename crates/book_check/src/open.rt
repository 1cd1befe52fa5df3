// The pass over a buffer that tells whether it is a book.
ghost use Rattle.std.specs.Prelude.{◌≡◌, position};
ghost use Rattle.book_check.specs.Opening.{is_stray, OpenRight};

use crate::chain::{BUCKETS, bucket_of, is_repeated, link_to};
use crate::record::{Record, word_of};
use book_frame::is_record;
use refusals::Refusal;

// The most bytes of a book.
pub const BOOK_LIMIT: usize = 16384;

// What a book that is opened tells: the number of its live records, and its first free byte.
#[derive(Clone, Copy)]
pub struct Opening {
    pub live: usize,
    pub free: usize,
}

// How many zero bytes stand before the first that is not zero.
fn first_stray(bytes: &[u8]) -> Option<usize>
    ensures { result ≡ position is_stray bytes.now }
{
    bytes.iter().position(|byte| *byte != 0)
}

// Passes over the records once. Each live record is put at the head of the chain of its word.
pub fn open_book(book: &[u8]) -> Result<Opening, Refusal>
    ensures { OpenRight book.now result }
{
    if BOOK_LIMIT < book.len() {
        return Err(Refusal::NotABook(BOOK_LIMIT));
    }
    let mut heads = [0u16; BUCKETS];
    let mut links = [0u16; BOOK_LIMIT];
    let mut at = 0;
    let mut live = 0;
    while at < book.len() {
        if book[at] == 0 {
            if let Some(passed) = first_stray(&book[at..]) {
                return Err(Refusal::NotABook(at + passed));
            }
            return Ok(Opening { live, free: at });
        }
        if !is_record(book, at) {
            return Err(Refusal::NotABook(at));
        }
        let record = Record::at(book, at);
        if record.live {
            let bucket = bucket_of(word_of(book, at));
            if is_repeated(book, at, bucket, &heads, &links) {
                return Err(Refusal::NotABook(at));
            }
            links[at] = heads[bucket];
            heads[bucket] = link_to(at);
            live += 1;
        }
        at += record.size;
    }
    Ok(Opening { live, free: at })
}
