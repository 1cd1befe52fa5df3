// The word that is handed in with a book: it is normalised first, and an empty one is refused.
ghost use Rattle.std.specs.Prelude.{◌≤◌, length};
ghost use Rattle.formula.specs.Limits.{limit};
ghost use Rattle.refusals.specs.Outcome.{outcome_of};
ghost use Rattle.wordbook.specs.Calls.{EnteredFor};

use normaliser::normalise;
use refusals::Refusal;

// Tests a word in the order 1, 8, 2, 3 or 4, and writes its stored form to the front of `values`. A refusal writes nothing.
pub(crate) fn enter(word: &[u16], values: &mut [u16]) -> Result<usize, Refusal>
    requires { limit ≤ length values.old }
    ensures { EnteredFor word.now values.old values.new (outcome_of result) }
{
    if word.len() == 0 {
        return Err(Refusal::EmptyWord);
    }
    normalise(word, values)
}
