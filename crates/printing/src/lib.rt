// What is printed for a line behind its number: the key of its word, or why it is refused.
#![tactic(auto)]

ghost use Rattle.std.specs.Prelude.{◌+◌, ◌≤◌, ◌≡◌, length};
ghost use Rattle.formula.specs.Limits.{limit};
ghost use Rattle.memory.specs.Put.{PutWithin};
ghost use Rattle.answer_text.specs.Answer.{answer_text_limit, AnswerPut};
ghost use Rattle.printing.specs.Output.{refusal_in, accepted_text, LineRight, WordText};

use answer_text::put_refused;
use collation::key::{Key, key_of};
use key_text::{put, put_decimal, put_key, put_text};
use lines::decode;
use refusals::Refusal;

// The key of the word of a line, or why the line or the word is refused.
fn answer_line(line: &[u8]) -> Result<Key, Refusal>
    ensures { LineRight line.now result }
{
    let word = decode(line)?;
    key_of(&word.values[..word.count])
}

// The refusal of an answer that is one.
fn refusal_in(answer: &Result<Key, Refusal>) -> Refusal
    ensures { result ≡ refusal_in answer.now }
{
    match answer {
        Err(refusal) => *refusal,
        Ok(_) => Refusal::NoSuchRow,
    }
}

// What follows the number of an accepted line.
#[tactic(auto, using(key_text::proofs::Decimal::decimal_short))]
fn put_accepted(out: &mut [u8], at: usize, key: &Key) -> usize
    requires { (at + answer_text_limit ≤ length out.old) × (key.now.count ≤ limit) }
    ensures { PutWithin answer_text_limit out.old at (accepted_text key.now.count key.now.bytes) out.new result }
{
    let spoken = put_text(out, at, b"OK ");
    let counted = put_decimal(out, spoken, key.count as u64);
    let spaced = put(out, counted, b' ');
    put_key(out, spaced, key.count, &key.bytes)
}

// What follows the number of a line.
pub fn put_word(out: &mut [u8], at: usize, line: &[u8]) -> usize
    requires { at + answer_text_limit ≤ length out.old }
    ensures { AnswerPut (WordText line.now) out.old at out.new result }
{
    let answer = answer_line(line);
    let Ok(key) = &answer else {
        return put_refused(out, at, refusal_in(&answer));
    };
    put_accepted(out, at, key)
}
