// The answer for a word, a number of syllables or a refusal, where a pass over it has stopped.
ghost use Rattle.refusals.specs.Outcome.{outcome_of};
ghost use Rattle.recogniser.specs.Answer.{Answers};
ghost use Rattle.recogniser.specs.Concluded.{Halted};

use crate::foreign::foreign_from;
use refusals::Refusal;

// The answer where a pass over the word has stopped with so many syllables, the last of which waits for a letter or not.
pub(crate) fn answer_where(
    word: &[u16],
    at: usize,
    waits: bool,
    count: usize,
) -> Result<usize, Refusal>
    requires { Halted word.now at waits count }
    ensures { Answers word.now (outcome_of result) }
{
    if at < word.len() {
        return Err(match foreign_from(word, at) {
            Some(place) => Refusal::Foreign(place),
            None => Refusal::NoContinuation(at),
        });
    }
    if waits {
        return Err(Refusal::Unfinished(at));
    }
    Ok(count)
}
