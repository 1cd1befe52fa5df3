// The calls on a book that take no word, for every buffer.
#![tactic(auto)]

ghost use Rattle.std.specs.Prelude.{◌≡◌};
ghost use Rattle.refusals.specs.Outcome.{outcome_by, outcome_of, tells_if_there};
ghost use Rattle.entries.specs.Entries.{entries};
ghost use Rattle.entries.specs.Outcome.{check_of};
ghost use Rattle.tidying.specs.Tidy.{TidyRight};
ghost use Rattle.lookup.specs.Look.{found_told};
ghost use Rattle.ranking.specs.Rank.{rank_of};
ghost use Rattle.ranking.specs.Whole.{OrderRight};
ghost use Rattle.book_word.specs.WordAt.{record_told, FewTold, WordRight};

use book_check::open::open_book;
use book_word::RecordTold;
use lookup::Found;
use refusals::Refusal;

// Whether the buffer is a book, and how many live records it has.
pub fn check(book: &[u8]) -> Result<usize, Refusal>
    ensures { outcome_of result ≡ check_of (entries book.now) }
{
    let opening = open_book(book)?;
    Ok(opening.live)
}

// Moves the live records to the front, fills the rest with zeros, and gives the live length.
pub fn tidy(book: &mut [u8]) -> Result<usize, Refusal>
    ensures { TidyRight book.old book.new (outcome_of result) }
{
    tidying::tidy(book)
}

// The live record with `number` live records before it in word order.
pub fn rank(book: &[u8], number: usize) -> Result<Found, Refusal>
    ensures { outcome_by found_told result ≡ rank_of (entries book.now) number }
{
    ranking::rank(book, number)
}

// Puts the starts of all live records, in word order, at the front of `starts`, and tells how many there are.
pub fn order(book: &[u8], starts: &mut [u16]) -> Result<usize, Refusal>
    ensures { OrderRight book.now starts.old starts.new (outcome_of result) }
{
    ranking::order_records(book, starts)
}

// Writes the word of the record that starts at `start` to the front of `output`, and tells of the record, if there is one.
pub fn word_at(book: &[u8], start: usize, output: &mut [u16]) -> Result<Option<RecordTold>, Refusal>
    ensures right { WordRight book.now start output.old output.new (outcome_by (tells_if_there record_told) result) }
    ensures few { FewTold result }
{
    book_word::word_at(book, start, output)
}
