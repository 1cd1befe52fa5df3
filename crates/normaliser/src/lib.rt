// The normaliser: a word of any values to its stored form, which is then read.
#![tactic(auto)]

ghost use Rattle.std.specs.Prelude.{◌≡◌};
ghost use Rattle.refusals.specs.Outcome.{outcome_of};
ghost use Rattle.refusals.specs.Output.{Puts};
ghost use Rattle.normaliser.specs.Normal.{HandedIn, NormalRight, NormaliseRight};

use formula::Word;
use memory::copies::put_all;
use recogniser::foreign::first_foreign;
use recogniser::walk::{answer_of, is_row};
use refusals::Refusal;

mod admission; // admission.rt: the tests 1 and 2
pub mod form; // form.rt: the stored form of any word
pub mod typed; // typed.rt: where a value of the stored form was typed

// A refusal of the stored form as one of the word: the place of a foreign value is that in the word as handed in.
pub fn as_handed_in(word: &[u16], refusal: Refusal) -> Refusal
    ensures { HandedIn word.now refusal result }
{
    if let Refusal::Foreign(_) = refusal {
        let foreign = first_foreign(word);
        return Refusal::Foreign(foreign.unwrap_or(word.len()));
    }
    refusal
}

// The stored form of a word, which is a row of syllables.
#[tactic(auto, using(crate::proofs::Storing::normal_too_long, crate::proofs::Storing::normal_refused))]
fn normal_form(word: &[u16]) -> Result<Word, Refusal>
    ensures { NormalRight word.now result }
{
    if Word::LIMIT < word.len() {
        return Err(Refusal::TooLong);
    }
    let form = storage::stored(word);
    answer_of(&form.values[..form.count]).map_err(|refusal| as_handed_in(word, refusal))?;
    Ok(form)
}

// Writes values to the front of `output`, where there is room for them, and tells how many.
#[tactic(auto, using(crate::proofs::Writing::values_stay, crate::proofs::Writing::values_put))]
pub fn put_out(values: &[u16], output: &mut [u16]) -> Result<usize, Refusal>
    ensures { Puts values.now output.old output.new (outcome_of result) }
{
    if output.len() < values.len() {
        return Err(Refusal::OutputTooShort(values.len()));
    }
    put_all(values, output, 0);
    Ok(values.len())
}

// Writes the stored form of a word to the front of `output`. A row of syllables is its own stored form.
#[tactic(auto, using(crate::proofs::Writing::normal_stays, crate::proofs::Writing::normal_put, crate::proofs::Writing::row_put, crate::proofs::Storing::form_fits))]
pub fn normalise(word: &[u16], output: &mut [u16]) -> Result<usize, Refusal>
    ensures { NormaliseRight word.now output.old output.new (outcome_of result) }
{
    if is_row(word) {
        return put_out(word, output);
    }
    let form = normal_form(word)?;
    put_out(&form.values[..form.count], output)
}
