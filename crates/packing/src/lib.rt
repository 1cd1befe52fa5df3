// Answers as one number of 64 bits each, for callers in other languages.
#![tactic(auto)]

ghost use Rattle.std.specs.Prelude.{◌≡◌, ℕ};
ghost use Rattle.refusals.specs.Refusal.{number_of, place_of};
ghost use Rattle.refusals.specs.Outcome.{Outcome, accepts, accepts_both, tells_if_there, outcome_by};
ghost use Rattle.refusals.specs.Pair.{pair_outcome_by};
ghost use Rattle.reading.specs.Parts.{part_told};
ghost use Rattle.spelling.specs.Spell.{spelled_told};
ghost use Rattle.collation.specs.Comparison.{order_number};
ghost use Rattle.likeness.specs.Likeness.{alike_number};
ghost use Rattle.lookup.specs.Look.{found_told};
ghost use Rattle.planning.specs.Plan.{added_told};
ghost use Rattle.book_word.specs.WordAt.{record_told};
ghost use Rattle.packing.specs.Packing.{answer, pack};
ghost use Rattle.packing.specs.Answers.{outcome_numbers, pair_numbers};

use book_word::RecordTold;
use lookup::Found;
use planning::Added;
use reading::parts::Part;
use refusals::{PairRefusal, Refusal};
use spelling::Spelled;
use std::cmp::Ordering;

// The number of a tag, a second number and a first; each is cut to its 8, 24 or 32 bits.
fn packed(tag: u64, second: u64, first: u64) -> u64
    ensures { result ≡ pack (answer tag second first) }
{
    tag % 0x100 * 0x100_0000_0000_0000 + second % 0x100_0000 * 0x1_0000_0000 + first % 0x1_0000_0000
}

// Two numbers that a call tells, in their order.
fn both(first: usize, second: usize) -> u64
    ensures { result ≡ pack (outcome_numbers (accepts_both first second)) }
{
    packed(0, second as u64, first as u64)
}

// A refusal, with a second number. It stands apart in the compiled library, so that the choice among the refusals is stored once and not for each call.
#[inline(never)]
fn refused(refusal: Refusal, second: u64) -> u64
    ensures { result ≡ pack (answer (number_of refusal) second (place_of refusal)) }
{
    packed(u64::from(refusal.number()), second, refusal.place() as u64)
}

// What a call answers, or what it tells where it is not refused.
pub trait Pack {
    // What it comes to.
    ghost outcome: { Self → Outcome };

    // Its number of 64 bits.
    fn pack(self) -> u64
        ensures { result ≡ pack (outcome_numbers (outcome self)) };
}

// A number that a call tells: of syllables, of values, of live records, or where a record starts.
impl Pack for usize {
    ghost outcome = { accepts };

    fn pack(self) -> u64 {
        packed(0, 0, self as u64)
    }
}

// The place and the length of a part.
impl Pack for Part {
    ghost outcome = { part_told };

    fn pack(self) -> u64 {
        both(self.place, self.size)
    }
}

// How many values and how many starts were written.
impl Pack for Spelled {
    ghost outcome = { spelled_told };

    fn pack(self) -> u64 {
        both(self.values, self.syllables)
    }
}

// The stock number and the start of a record.
impl Pack for Found {
    ghost outcome = { found_told };

    fn pack(self) -> u64 {
        both(self.stock as usize, self.start)
    }
}

// Where a record starts, and whether the book was tidied for it.
impl Pack for Added {
    ghost outcome = { added_told };

    fn pack(self) -> u64 {
        both(self.start, usize::from(self.tidied))
    }
}

// The stock number of a record, and the one number for how many values its word has and whether it is live.
impl Pack for RecordTold {
    ghost outcome = { record_told };

    fn pack(self) -> u64 {
        both(self.stock as usize, self.marked_count())
    }
}

// What there may be nothing of, of the number asked for.
impl<T: Pack> Pack for Option<T> {
    ghost outcome = { tells_if_there T.outcome };

    fn pack(self) -> u64 {
        match self {
            Some(told) => told.pack(),
            None => packed(128, 0, 0),
        }
    }
}

impl<T: Pack> Pack for Result<T, Refusal> {
    ghost outcome = { outcome_by T.outcome };

    fn pack(self) -> u64 {
        match self {
            Ok(told) => told.pack(),
            Err(refusal) => refused(refusal, 0),
        }
    }
}

// What a number tells of two words.
pub trait Numbered {
    ghost number: { Self → ℕ };

    fn number(self) -> u64
        ensures { result ≡ number self };
}

// 1 where they look alike.
impl Numbered for bool {
    ghost number = { alike_number };

    fn number(self) -> u64 {
        u64::from(self)
    }
}

// How the first stands to the second: 0 for before, 1 for equal and 2 for behind.
impl Numbered for Ordering {
    ghost number = { order_number };

    fn number(self) -> u64 {
        match self {
            Ordering::Less => 0,
            Ordering::Equal => 1,
            Ordering::Greater => 2,
        }
    }
}

// What is told of two words, or the refusal, with the word that it is of.
pub fn pack_pair<T: Numbered>(answer: Result<T, PairRefusal>) -> u64
    ensures { result ≡ pack (pair_numbers (pair_outcome_by T.number answer)) }
{
    match answer {
        Ok(told) => packed(0, 0, told.number()),
        Err(PairRefusal::First(refusal)) => refused(refusal, 1),
        Err(PairRefusal::Second(refusal)) => refused(refusal, 2),
    }
}
