// The live records of a book in word order: all of them, and the one with so many before it.
#![tactic(auto)]

ghost use Rattle.std.specs.Prelude.{◌≡◌};
ghost use Rattle.refusals.specs.Outcome.{outcome_by, outcome_of};
ghost use Rattle.entries.specs.Entries.{entries};
ghost use Rattle.lookup.specs.Look.{found_told};
ghost use Rattle.ranking.specs.Rank.{rank_of};
ghost use Rattle.ranking.specs.Whole.{OrderRight};

use book_check::open::open_book;
use book_keys::MOST_LIVE;
use lookup::{Found, stock_at};
use refusals::Refusal;
use sorting::records::sort_records;

// The live record with `number` live records before it in word order.
pub fn rank(book: &[u8], number: usize) -> Result<Found, Refusal>
    ensures { outcome_by found_told result ≡ rank_of (entries book.now) number }
{
    let opening = open_book(book)?;
    if opening.live <= number {
        return Err(Refusal::RankTooHigh(opening.live));
    }
    let mut starts = [0u16; MOST_LIVE];
    // A book has no more live records than there is room for here, so their starts are not refused.
    let _ = sort_records(book, opening.free, b"", &mut starts);
    let start = usize::from(starts[number]);
    let stock = stock_at(book, start);
    Ok(Found { stock, start })
}

// Puts the starts of all live records, in word order, at the front of `starts`, where there is room for them, and tells how many.
pub fn order_records(book: &[u8], starts: &mut [u16]) -> Result<usize, Refusal>
    ensures { OrderRight book.now starts.old starts.new (outcome_of result) }
{
    let opening = open_book(book)?;
    if starts.len() < opening.live {
        return Err(Refusal::OutputTooShort(opening.live));
    }
    sort_records(book, opening.free, b"", starts)
}
