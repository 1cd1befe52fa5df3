// Where a value of the stored form was typed.
ghost use Rattle.refusals.specs.Outcome.{accepts, outcome_by, tells_if_there};
ghost use Rattle.normaliser.specs.Typed.{TypedAnswers};

use crate::admission::admit;
use refusals::Refusal;

// Which value of a word stands at `place` of its stored form: its place in the word; nothing where the stored form ends before that. A 1026 made of
// 1025 102E stands for the 1025.
#[tactic(auto, using(crate::proofs::Writing::place_told))]
pub fn typed_place(word: &[u16], place: usize) -> Result<Option<usize>, Refusal>
    ensures { TypedAnswers word.now place (outcome_by (tells_if_there accepts) result) }
{
    admit(word)?;
    Ok(typed_places::place_in_word(word, place))
}
