// One pass over a word for its answer alone: the state of the reading and the number of syllables, by the tables of `transitions`.
ghost use Rattle.std.specs.Prelude.{◌≤◌, length};
ghost use Rattle.formula.specs.Limits.{limit};
ghost use Rattle.refusals.specs.Outcome.{outcome_of};
ghost use Rattle.recogniser.specs.Answer.{Answers, RowTest};
ghost use Rattle.recogniser.specs.Walked.{WalkStopped};

use crate::answer::answer_where;
use formula::Word;
use refusals::Refusal;
use transitions::tables::{Rules, next, rules_of};

// The state of a row whose last final waits for a letter.
const WAITING: usize = 4;

// The values before `at` are read, and the one at `at` is refused, unless it is the end.
#[derive(Clone, Copy)]
pub struct Walk {
    pub at: usize,
    pub state: usize,
    pub count: usize,
}

#[tactic(auto, using(crate::proofs::Walking::walk_start, crate::proofs::Walking::turn_walked))]
pub(crate) fn walk_word(word: &[u16]) -> Walk
    requires { length word.now ≤ limit }
    ensures { WalkStopped word.now result.at result.state result.count }
{
    let mut state = 0;
    let mut count = 0;
    for (at, &x) in word.iter().enumerate() {
        let entry = next(state, rules_of(x));
        if entry == Rules::REFUSED {
            return Walk { at, state, count };
        }
        state = usize::from(entry % 32);
        count = count + usize::from(entry / 32) - 1;
    }
    Walk {
        at: word.len(),
        state,
        count,
    }
}

// The answer where a walk over the word has stopped.
pub fn answer_at(word: &[u16], at: usize, state: usize, count: usize) -> Result<usize, Refusal>
    requires { WalkStopped word.now at state count }
    ensures { Answers word.now (outcome_of result) }
{
    answer_where(word, at, state == WAITING, count)
}

// The answer for a word of any values and any length.
pub fn answer_of(word: &[u16]) -> Result<usize, Refusal>
    ensures { Answers word.now (outcome_of result) }
{
    if Word::LIMIT < word.len() {
        return Err(Refusal::TooLong);
    }
    let walk = walk_word(word);
    answer_at(word, walk.at, walk.state, walk.count)
}

// Whether a word is a row of syllables of admitted values within the limit.
#[tactic(auto, using(crate::proofs::Answered::test_right))]
pub fn is_row(word: &[u16]) -> bool
    ensures { RowTest word.now result }
{
    answer_of(word).is_ok()
}
