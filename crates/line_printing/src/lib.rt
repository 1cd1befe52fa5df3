// What is printed for a line: its number, and the answer to what is asked of it.
#![tactic(auto)]

ghost use Rattle.std.specs.Prelude.{List, ℕ, ◌+◌, ◌≤◌, length};
ghost use Rattle.answer_text.specs.Answer.{answer_text_limit, AnswerPut};
ghost use Rattle.printing.specs.Output.{WordText};
ghost use Rattle.printing.proofs.Answers.{word_kept};
ghost use Rattle.printing.proofs.Determined.{word_text_once};
ghost use Rattle.label_printing.specs.Output.{LabelText};
ghost use Rattle.label_printing.proofs.Labels.{label_kept};
ghost use Rattle.label_printing.proofs.Determined.{label_text_once};
ghost use Rattle.line_printing.specs.Printed.{Keeps, Once, printed_limit, LinePut};

use answer_text::ANSWER_TEXT_LIMIT;
use key_text::{DECIMAL_LIMIT, put, put_decimal};
use label_printing::put_label;
use printing::put_word;

// The most bytes that are printed for a line: its number with a space, the answer, and 0A.
pub const PRINTED_LIMIT: usize = DECIMAL_LIMIT + 1 + ANSWER_TEXT_LIMIT + 1;

// What is asked of each line of a list.
pub trait Task {
    // What may be printed for a line behind its number.
    ghost Answers: { List ℕ → List ℕ → Type 0 };

    // What follows the number of a line.
    fn put_answer(out: &mut [u8], at: usize, line: &[u8]) -> usize
        requires { at + answer_text_limit ≤ length out.old }
        ensures { AnswerPut (Answers line.now) out.old at out.new result };

    // The first bytes of a line that is too long are answered as the line.
    ghost kept: { Keeps Answers };
}

// A task by which a line has one answer.
pub trait DeterministicTask: Task {
    ghost once: { Once Self.Answers };
}

// The key of the word of a line.
#[derive(Clone, Copy)]
pub struct WordKeys;

impl Task for WordKeys {
    ghost Answers = { WordText };

    ghost kept = { λ most over line text. word_kept most over line };

    fn put_answer(out: &mut [u8], at: usize, line: &[u8]) -> usize {
        put_word(out, at, line)
    }
}

impl DeterministicTask for WordKeys {
    ghost once = { word_text_once };
}

// The skeleton of the label of a line.
#[derive(Clone, Copy)]
pub struct LabelSkeletons;

impl Task for LabelSkeletons {
    ghost Answers = { LabelText };

    ghost kept = { λ most over line text. label_kept most over line };

    fn put_answer(out: &mut [u8], at: usize, line: &[u8]) -> usize {
        put_label(out, at, line)
    }
}

impl DeterministicTask for LabelSkeletons {
    ghost once = { label_text_once };
}

// Writes what is printed for a line of this number to the front of the output, and answers how many bytes that is.
pub fn put_line<T: Task>(out: &mut [u8], number: u64, line: &[u8]) -> usize
    requires { printed_limit ≤ length out.old }
    ensures { LinePut T.Answers out.old number line.now out.new result }
{
    let numbered = put_decimal(out, 0, number);
    let spaced = put(out, numbered, b' ');
    let answered = T::put_answer(out, spaced, line);
    put(out, answered, b'\n')
}

#[cfg(test)]
mod tests {
    use super::*;

    // A task by which a line may have any answer, so that it is no `DeterministicTask`.
    struct Dashes;

    impl Task for Dashes {
        ghost Answers = { λ line text. Unit {0} };

        ghost kept = { λ most over line text given. given };

        fn put_answer(out: &mut [u8], at: usize, _line: &[u8]) -> usize {
            put(out, at, b'-')
        }
    }

    #[test]
    fn a_line_may_have_any_answer(rt: HostRuntime) {
        let mut out = [0; PRINTED_LIMIT];
        let used = put_line::<Dashes>(&mut out, 7, b"");
        assert_eq!(rt; &out[..used], b"7 -\n".as_slice());
    }
}
