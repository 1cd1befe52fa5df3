// The answers of find, add and remove to a word in storage order, decided by reading alone.
#![tactic(auto)]

ghost use Rattle.std.specs.Prelude.{◌≡◌, List, IfOk, length};
ghost use Rattle.refusals.specs.Outcome.{outcome_by, outcome_of};
ghost use Rattle.entries.specs.Limits.{head_size};
ghost use Rattle.entries.specs.Entries.{Entry, entries};
ghost use Rattle.entries.specs.Book.{IsBook, Opened, Within};
ghost use Rattle.entries.specs.Change.{Storable};
ghost use Rattle.entries.specs.Tidy.{live_length};
ghost use Rattle.entries.specs.Outcome.{find_of, add_of, remove_of};
ghost use Rattle.lookup.specs.Look.{found_told};
ghost use Rattle.planning.specs.Plan.{added_told, plan_told, RoomRight, PlanRight, PlacedRight};
ghost use Rattle.planning.specs.Preview.{preview_of, preview_outcome};

use book_frame::HEAD;
use lookup::{Found, Look, look_up};
use refusals::Refusal;

// The live record with the word.
pub fn find(book: &[u8], word: &[u16]) -> Result<Found, Refusal>
    ensures answer { outcome_by found_told result ≡ find_of (entries book.now) word.now }
    ensures within { IfOk result (λ found. Within book.now found.start head_size) }
{
    match look_up(book, word)? {
        Look::Live(found) => Ok(found),
        Look::Missing { free: _, length: _ } => Err(Refusal::NotLive),
    }
}

// What add tells of a record: where it starts, and whether the book was tidied for it.
#[derive(Clone, Copy)]
pub struct Added {
    pub start: usize,
    pub tidied: bool,
}

// Where add puts a record: behind the last one, or, where it fits only then, behind the live records of the tidied book. The records that are tidied end at
// `free`.
#[derive(Clone, Copy)]
pub enum Plan {
    Behind { start: usize },
    Tidied { start: usize, free: usize },
}

impl Plan {
    // What add tells where it does what the plan says.
    pub fn added(self) -> Added
        ensures { added_told result ≡ plan_told self }
    {
        match self {
            Plan::Behind { start } => Added {
                start,
                tidied: false,
            },
            Plan::Tidied { start, free: _ } => Added {
                start,
                tidied: true,
            },
        }
    }
}

// Where a record of `size` bytes goes in a book whose live records have `length` bytes.
#[tactic(auto, using(crate::proofs::Behind::behind_last))]
fn plan_record(book: &[u8], free: usize, length: usize, size: usize) -> Result<Plan, Refusal>
    requires { Opened book.now free × ((list : List Entry) → IsBook book.now list → length ≡ live_length list) }
    ensures { RoomRight book.now free size result }
{
    if size <= book.len() - free {
        return Ok(Plan::Behind { start: free });
    }
    if book.len() - length < size {
        return Err(Refusal::BookFull(length));
    }
    Ok(Plan::Tidied {
        start: length,
        free,
    })
}

// Where a record with the word would be added.
pub fn plan_add(book: &[u8], word: &[u16]) -> Result<Plan, Refusal>
    requires { Storable word.now }
    ensures { PlanRight book.now word.now result }
{
    match look_up(book, word)? {
        Look::Live(found) => Err(Refusal::AlreadyLive(found.start)),
        Look::Missing { free, length } => plan_record(book, free, length, HEAD + word.len()),
    }
}

// What add would tell of a record with the word: where it would start, and whether the book would be tidied for it.
pub fn preview(book: &[u8], word: &[u16]) -> Result<Added, Refusal>
    requires { Storable word.now }
    ensures { preview_outcome result ≡ preview_of (add_of (entries book.now) (length book.now) word.now) }
{
    let plan = plan_add(book, word)?;
    Ok(plan.added())
}

// Where the live record with the word would be removed.
pub fn plan_remove(book: &[u8], word: &[u16]) -> Result<usize, Refusal>
    ensures { PlacedRight book.now (remove_of (entries book.now) word.now) (outcome_of result) }
{
    let found = find(book, word)?;
    Ok(found.start)
}
