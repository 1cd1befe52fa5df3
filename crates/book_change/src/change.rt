// Adding and removing records: the decision first, then the bytes.
ghost use Rattle.std.specs.Prelude.{◌≡◌, ◌+◌, length};
ghost use Rattle.refusals.specs.Outcome.{outcome_by, outcome_of};
ghost use Rattle.entries.specs.Limits.{head_size};
ghost use Rattle.entries.specs.Change.{Storable};
ghost use Rattle.planning.specs.Plan.{added_told, plan_told, PlanWithin};
ghost use Rattle.book_change.specs.Written.{bytes_added, AddRight, RemoveRight};

use book_record::put_record;
use planning::{Added, Plan, plan_add, plan_remove};
use refusals::Refusal;
use tidying::tidy_records;

// Does what the plan says.
fn carry_out(book: &mut [u8], plan: Plan, word: &[u16], stock: u32)
    requires { PlanWithin book.old (head_size + length word.now) plan × Storable word.now }
    ensures { book.new ≡ bytes_added (plan_told plan) book.old word.now stock }
{
    match plan {
        Plan::Behind { start } => put_record(book, start, word, stock),
        Plan::Tidied { start, free } => {
            tidy_records(book, free);
            put_record(book, start, word, stock);
        }
    }
}

// Puts a live record with the word just after the last record, and tidies the book first where it does not fit otherwise.
pub fn add(book: &mut [u8], word: &[u16], stock: u32) -> Result<Added, Refusal>
    requires { Storable word.now }
    ensures { AddRight word.now stock book.old book.new (outcome_by added_told result) }
{
    let plan = plan_add(book, word)?;
    carry_out(book, plan, word, stock);
    Ok(plan.added())
}

// Marks the live record with the word as removed.
pub fn remove(book: &mut [u8], word: &[u16]) -> Result<usize, Refusal>
    ensures { RemoveRight word.now book.old book.new (outcome_of result) }
{
    let start = plan_remove(book, word)?;
    let removed = b"M-";
    book[start + 1] = removed[1];
    Ok(start)
}
