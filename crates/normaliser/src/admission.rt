// The tests that a word passes before anything is made of it: its length, then its values.
ghost use Rattle.refusals.specs.Outcome.{outcome_of};
ghost use Rattle.normaliser.specs.Admission.{AdmitAnswers};

use formula::Word;
use recogniser::foreign::first_foreign;
use refusals::Refusal;

// How many values a word has, or why it is refused.
#[tactic(auto, using(crate::proofs::Admitting::refuses_long, crate::proofs::Admitting::refuses_foreign))]
pub(crate) fn admit(word: &[u16]) -> Result<usize, Refusal>
    ensures { AdmitAnswers word.now (outcome_of result) }
{
    if Word::LIMIT < word.len() {
        return Err(Refusal::TooLong);
    }
    if let Some(foreign) = first_foreign(word) {
        return Err(Refusal::Foreign(foreign));
    }
    Ok(word.len())
}
