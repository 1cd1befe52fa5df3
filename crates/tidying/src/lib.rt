// Tidying a book: its live records are moved to the front, one behind the other, and the rest is zeros.
#![tactic(auto)]

ghost use Rattle.refusals.specs.Outcome.{accepts, outcome_of};
ghost use Rattle.entries.specs.Book.{Opened};
ghost use Rattle.tidying.specs.Tidy.{Closed, TidyRight};

use book_check::open::open_book;
use book_check::record::Record;
use memory::copies::{clear, move_down};
use refusals::Refusal;

// Moves the live records of a book down to its front, in the order of their starts, and gives the place behind them.
fn close_gaps(book: &mut [u8], free: usize) -> usize
    requires { Opened book.old free }
    ensures { Closed book.old book.new free result }
{
    let mut at = 0;
    let mut kept = 0;
    while at < free {
        let record = Record::at(book, at);
        if record.live {
            move_down(book, at, kept, record.size);
            kept += record.size;
        }
        at += record.size;
    }
    kept
}

// Tidies a book whose first free byte is known, and gives its live length.
pub fn tidy_records(book: &mut [u8], free: usize) -> usize
    requires { Opened book.old free }
    ensures { TidyRight book.old book.new (accepts result) }
{
    let kept = close_gaps(book, free);
    clear(book, kept, free - kept);
    kept
}

// Tidies a buffer that is a book, and gives its live length.
pub fn tidy(book: &mut [u8]) -> Result<usize, Refusal>
    ensures { TidyRight book.old book.new (outcome_of result) }
{
    let opening = open_book(book)?;
    let length = tidy_records(book, opening.free);
    Ok(length)
}
