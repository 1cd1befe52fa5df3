// The three rules that a label meets, tested over the stored form of a word.
#![tactic(auto)]

ghost use Rattle.std.specs.Prelude.{◌≡◌, ◌<◌, length, ◌||◌, slice_get};
ghost use Rattle.letters.specs.Letters.{is_stop, is_sign};
ghost use Rattle.refusals.specs.Outcome.{outcome_of};
ghost use Rattle.label_rules.specs.Rules.{looks_like_letter, is_other, value_before, is_stop_or_sign, is_confusable, IsFirst, label_of};

use formula::Word;
use refusals::Refusal;

// The digits that look like a letter.
const ZERO: u16 = 0x1040;

const SEVEN: u16 = 0x1047;

const LAST_DIGIT: u16 = 0x1049;

const FIRST_STOP: u16 = 0x104A;

const LAST_SIGN: u16 = 0x104F;

// Stops and signs follow one another.
fn is_stop_or_sign(x: u16) -> bool
    ensures { result ≡ (is_stop x || is_sign x) }
{
    matches!(x, FIRST_STOP..=LAST_SIGN)
}

// The place of the first stop or sign.
fn first_stop_or_sign(word: &[u16]) -> Option<usize>
    ensures { IsFirst (is_stop_or_sign word.now) (length word.now) result }
{
    word.iter().position(|x| is_stop_or_sign(*x))
}

#[tactic(auto, unfolding(crate::specs::Rules::looks_like_letter))]
fn looks_like_letter(x: u16) -> bool
    ensures { result ≡ looks_like_letter x }
{
    matches!(x, ZERO | SEVEN)
}

// Whether a value that is no digit stands at a place.
#[tactic(auto, unfolding(crate::specs::Rules::is_other))]
fn is_other(word: &[u16], at: usize) -> bool
    ensures { result ≡ is_other (slice_get word.now at) }
{
    word.get(at)
        .is_some_and(|x| !matches!(*x, ZERO..=LAST_DIGIT))
}

// Whether one stands before a place.
#[tactic(auto, unfolding(crate::specs::Rules::is_other))]
fn is_other_before(word: &[u16], at: usize) -> bool
    ensures { result ≡ is_other (value_before word.now at) }
{
    at.checked_sub(1)
        .is_some_and(|before| is_other(word, before))
}

// Whether a digit that looks like a letter stands at a place, next to a value that is no digit.
#[tactic(auto, unfolding(crate::specs::Rules::is_confusable))]
fn is_confusable(word: &[u16], at: usize) -> bool
    requires { at < length word.now }
    ensures { result ≡ is_confusable word.now at }
{
    looks_like_letter(word[at]) && (is_other_before(word, at) || is_other(word, at + 1))
}

// The place of the first such digit.
fn first_confusable(word: &[u16]) -> Option<usize>
    ensures { IsFirst (is_confusable word.now) (length word.now) result }
{
    (0..word.len()).find(|at| is_confusable(word, *at))
}

// What is answered to the stored form of a word with so many syllables: their number, or the first rule that it breaks.
pub fn answer_by_rules(word: &[u16], syllables: usize) -> Result<usize, Refusal>
    ensures { outcome_of result ≡ label_of word.now syllables }
{
    if let Some(sign) = first_stop_or_sign(word) {
        return Err(Refusal::StopOrSign(sign));
    }
    if let Some(digit) = first_confusable(word) {
        return Err(Refusal::ConfusableDigit(digit));
    }
    if Word::LABEL_LIMIT < syllables {
        return Err(Refusal::TooManySyllables);
    }
    Ok(syllables)
}
