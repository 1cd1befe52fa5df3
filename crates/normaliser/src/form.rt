// The stored form of any word, also of one that is refused for what it reads as.
ghost use Rattle.refusals.specs.Outcome.{outcome_of};
ghost use Rattle.normaliser.specs.Form.{FormRight};

use crate::admission::admit;
use crate::put_out;
use refusals::Refusal;

// Writes the stored form of a word to the front of `output`, whether or not it is a row of syllables.
#[tactic(auto, using(crate::proofs::Writing::form_stays, crate::proofs::Writing::form_put))]
pub fn stored_form(word: &[u16], output: &mut [u16]) -> Result<usize, Refusal>
    ensures { FormRight word.now output.old output.new (outcome_of result) }
{
    admit(word)?;
    let form = storage::stored(word);
    put_out(&form.values[..form.count], output)
}
