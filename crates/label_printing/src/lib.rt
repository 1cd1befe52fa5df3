// What is printed for a line behind its number where labels are asked for: the skeleton of its label, or why it is refused.
#![tactic(auto)]

ghost use Rattle.std.specs.Prelude.{◌+◌, ◌≤◌, length};
ghost use Rattle.memory.specs.Put.{PutWithin};
ghost use Rattle.skeletons.specs.Skeleton.{skeleton_limit};
ghost use Rattle.answer_text.specs.Answer.{answer_text_limit, AnswerPut};
ghost use Rattle.label_printing.specs.Output.{skeleton_text, WordLabelText, LabelText};

use answer_text::put_refused;
use key_text::{put_text, put_values};
use labelling::skeleton;
use lines::decode;
use skeletons::LIMIT;

// What follows the number of a line that is a label.
#[tactic(auto, using(memory::proofs::Putting::put_after, crate::proofs::Labels::skeleton_text_short), unfolding(crate::specs::Output::skeleton_text))]
fn put_skeleton(out: &mut [u8], at: usize, values: &[u16]) -> usize
    requires { (at + answer_text_limit ≤ length out.old) × (length values.now ≤ skeleton_limit) }
    ensures { PutWithin answer_text_limit out.old at (skeleton_text values.now) out.new result }
{
    let spoken = put_text(out, at, b"OK ");
    put_values(out, spoken, values)
}

// What follows the number of a line that has these values.
fn put_word_label(out: &mut [u8], at: usize, word: &[u16]) -> usize
    requires { at + answer_text_limit ≤ length out.old }
    ensures { AnswerPut (WordLabelText word.now) out.old at out.new result }
{
    let mut values = [0; LIMIT];
    match skeleton(word, &mut values) {
        Err(refusal) => put_refused(out, at, refusal),
        Ok(count) => put_skeleton(out, at, &values[..count]),
    }
}

// What follows the number of a line.
pub fn put_label(out: &mut [u8], at: usize, line: &[u8]) -> usize
    requires { at + answer_text_limit ≤ length out.old }
    ensures { AnswerPut (LabelText line.now) out.old at out.new result }
{
    match decode(line) {
        Err(refusal) => put_refused(out, at, refusal),
        Ok(word) => put_word_label(out, at, &word.values[..word.count]),
    }
}
