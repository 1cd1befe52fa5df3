// The weights of a word that is normalised first.
ghost use Rattle.std.specs.Prelude.{◌≡◌};
ghost use Rattle.weighing.specs.Keys.{key_limit, zeros};
ghost use Rattle.collation.specs.Keyed.{WeighRight};

use formula::Word;
use keying::fill::fill;
use normaliser::as_handed_in;
use refusals::Refusal;

// Fills a key of zeros with the weights of a word's stored form, which is a word of its own.
#[tactic(auto, using(crate::proofs::Weighing::long_weighed))]
fn weigh_stored(word: &[u16], bytes: &mut [u8; Word::KEY]) -> Result<usize, Refusal>
    requires { bytes.old ≡ zeros key_limit }
    ensures { WeighRight word.now result bytes.new }
{
    if Word::LIMIT < word.len() {
        return Err(Refusal::TooLong);
    }
    let form = storage::stored(word);
    fill(&form.values[..form.count], bytes).map_err(|refusal| as_handed_in(word, refusal))
}

// The same for a word of any values and any length; with a refusal it is a key of zeros again. A row of syllables is its own stored form.
pub fn weigh(word: &[u16], bytes: &mut [u8; Word::KEY]) -> Result<usize, Refusal>
    requires { bytes.old ≡ zeros key_limit }
    ensures { WeighRight word.now result bytes.new }
{
    if let Ok(count) = fill(word, bytes) {
        return Ok(count);
    }
    weigh_stored(word, bytes)
}
