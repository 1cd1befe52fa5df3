// Labels of a web shop: whether a word is one, and its skeleton. Each word is normalised first; a row of syllables is its own stored form.
#![tactic(auto)]

ghost use Rattle.std.specs.Prelude.{◌≡◌, ◌≤◌, leb, length};
ghost use Rattle.refusals.specs.Outcome.{outcome_of};
ghost use Rattle.recogniser.specs.Answer.{Reads, Readable};
ghost use Rattle.skeletons.specs.Skeleton.{skeleton_of, skeleton_limit};
ghost use Rattle.labelling.specs.Labelling.{LabelAnswers, SkeletonRight};
ghost use Rattle.labelling.specs.Putting.{FormPut};

use formula::Word;
use label_rules::answer_by_rules;
use normaliser::normalise;
use recogniser::walk::answer_of;
use refusals::Refusal;
use skeletons::LIMIT;

// How many syllables a row has.
#[tactic(auto, using(crate::proofs::Stored::row_counted))]
fn count_syllables(row: &[u16]) -> usize
    requires { Readable row.now }
    ensures { Reads row.now result }
{
    answer_of(row).unwrap_or(0)
}

// Whether a word is a label: how many syllables it has, or why it is refused.
pub fn label(word: &[u16]) -> Result<usize, Refusal>
    ensures { LabelAnswers word.now (outcome_of result) }
{
    if let Ok(syllables) = answer_of(word) {
        return answer_by_rules(word, syllables);
    }
    let mut values = [0; Word::LIMIT];
    let count = normalise(word, &mut values)?;
    let form = &values[..count];
    answer_by_rules(form, count_syllables(form))
}

// Whether a list of so many values has room for the skeleton of a stored form. None is longer than the limit, so that most need not be measured.
fn has_room(form: &[u16], room: usize) -> bool
    requires { length (skeleton_of form.now) ≤ skeleton_limit }
    ensures { result ≡ leb (length (skeleton_of form.now)) room }
{
    if LIMIT <= room {
        return true;
    }
    skeletons::measure(form) <= room
}

// Writes the skeleton of a row of so many syllables to the front of the output, where the rules accept it and there is room.
#[tactic(auto, using(crate::proofs::Stored::rules_break))]
fn put_skeleton(form: &[u16], syllables: usize, output: &mut [u16]) -> Result<usize, Refusal>
    requires { Reads form.now syllables }
    ensures { FormPut form.now syllables output.old output.new (outcome_of result) }
{
    answer_by_rules(form, syllables)?;
    if has_room(form, output.len()) {
        return Ok(skeletons::put(form, output));
    }
    Err(Refusal::OutputTooShort(skeletons::measure(form)))
}

// Writes the skeleton of a label to the front of `output`, and tells how many values it has.
pub fn skeleton(word: &[u16], output: &mut [u16]) -> Result<usize, Refusal>
    ensures { SkeletonRight word.now output.old output.new (outcome_of result) }
{
    if let Ok(syllables) = answer_of(word) {
        return put_skeleton(word, syllables, output);
    }
    let mut values = [0; Word::LIMIT];
    let count = normalise(word, &mut values)?;
    let form = &values[..count];
    put_skeleton(form, count_syllables(form), output)
}
