// The live records of a book that begin with some weights, sorted by their words.
ghost use Rattle.refusals.specs.Outcome.{outcome_of};
ghost use Rattle.entries.specs.Book.{Opened};
ghost use Rattle.book_fitting.specs.Fitting.{fits_key};
ghost use Rattle.sorting.specs.Passing.{PutsPassing};

use crate::merging::sort;
use book_fitting::keep_fitting;
use book_keys::{KEY_ROOM, MOST_LIVE, file_records};
use refusals::Refusal;

// Puts the starts of the live records whose weights begin with these, in word order, at the front of `starts`, where there is room for them.
pub fn sort_records(
    book: &[u8],
    free: usize,
    prefix: &[u8],
    starts: &mut [u16],
) -> Result<usize, Refusal>
    requires { Opened book.now free }
    ensures { PutsPassing book.now (fits_key prefix.now) starts.old starts.new (outcome_of result) }
{
    let mut keys = [0u8; KEY_ROOM];
    let mut found = [0u16; MOST_LIVE];
    let live = file_records(book, free, &mut keys, &mut found);
    let count = keep_fitting(&keys, prefix, &mut found[..live]);
    if starts.len() < count {
        return Err(Refusal::OutputTooShort(count));
    }
    starts[..count].copy_from_slice(&found[..count]);
    sort(book, &keys, &mut starts[..count], &mut found);
    Ok(count)
}
