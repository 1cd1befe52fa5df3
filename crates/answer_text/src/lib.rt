// What follows the number of a line that is refused, in the same words whatever is asked of the line.
#![tactic(auto)]

ghost use Rattle.std.specs.Prelude.{◌+◌, ◌≤◌, length};
ghost use Rattle.refusals.specs.Refusal.{number_of, place_of};
ghost use Rattle.answer_text.specs.Answer.{refused_text, answer_text_limit};
ghost use Rattle.memory.specs.Put.{PutWithin};

use key_text::{DECIMAL_LIMIT, KEY_TEXT_LIMIT, put, put_decimal, put_text};
use refusals::Refusal;

// The most bytes behind the number of a line, whatever is asked of it: OK with a space, a number with a space, and a key.
pub const ANSWER_TEXT_LIMIT: usize = 3 + DECIMAL_LIMIT + 1 + KEY_TEXT_LIMIT;

// What follows the number of a refused line.
#[tactic(auto, using(key_text::proofs::Decimal::decimal_short))]
pub fn put_refused(out: &mut [u8], at: usize, refusal: Refusal) -> usize
    requires { at + answer_text_limit ≤ length out.old }
    ensures { PutWithin answer_text_limit out.old at (refused_text (number_of refusal) (place_of refusal)) out.new result }
{
    let spoken = put_text(out, at, b"NO ");
    let numbered = put_decimal(out, spoken, u64::from(refusal.number()));
    let spaced = put(out, numbered, b' ');
    put_decimal(out, spaced, refusal.place() as u64)
}
