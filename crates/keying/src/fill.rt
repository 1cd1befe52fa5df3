// The reading of a word and its key in one pass.
ghost use Rattle.std.specs.Prelude.{◌≡◌, ◌≤◌};
ghost use Rattle.letters.specs.Weights.{medial_table};
ghost use Rattle.formula.specs.Limits.{limit};
ghost use Rattle.weighing.specs.Keys.{key_limit, zeros};
ghost use Rattle.keying.specs.Filling.{put_last, Advanced};
ghost use Rattle.syllables.specs.Window.{Fit};
ghost use Rattle.keying.specs.Filled.{FillRight};

use formula::{Window, Word};
use letters::weight::medial_weights;
use recogniser::walk::answer_at;
use refusals::Refusal;
use syllable_weights::put_weights;
use syllables::window::{closed_by, window_after};
use transitions::classes::begins;
use transitions::tables::{Rules, gain, next, rules_of};

// Puts the last of `count` syllables at its place.
fn put_last(bytes: &mut [u8; Word::KEY], count: usize, packed: u64, medials: &[u8; 16])
    requires { (count ≤ limit) × (medials.now ≡ medial_table) }
    ensures { bytes.new ≡ put_last count packed bytes.old }
{
    if count == 0 {
        return;
    }
    put_weights(bytes, Word::WEIGHTS * (count - 1), packed, medials);
}

// The window after the value x; the last syllable is put where another begins.
fn advance(
    bytes: &mut [u8; Word::KEY],
    window: Window,
    change: u8,
    gain: u64,
    x: u16,
    medials: &[u8; 16],
) -> Window
    requires { Fit change gain x window × (medials.now ≡ medial_table) }
    ensures { Advanced change gain x window bytes.old result bytes.new }
{
    let after = window_after(window, change, gain, x);
    if begins(x) {
        put_last(bytes, window.count, closed_by(x, window.last), medials);
        return after;
    }
    after
}

// Reads a word of any values and any length, and fills a key of zeros with its weights; with a refusal it is a key of zeros again. A syllable is
// put when the next one begins, and the last at the end.
pub fn fill(word: &[u16], bytes: &mut [u8; Word::KEY]) -> Result<usize, Refusal>
    requires { bytes.old ≡ zeros key_limit }
    ensures { FillRight word.now result bytes.new }
{
    if Word::LIMIT < word.len() {
        return Err(Refusal::TooLong);
    }
    let medials = medial_weights();
    let mut window = Word::unread();
    let mut state = 0;
    for (at, &x) in word.iter().enumerate() {
        let rules = rules_of(x);
        let entry = next(state, rules);
        if entry == Rules::REFUSED {
            *bytes = [0; Word::KEY];
            return answer_at(word, at, state, window.count);
        }
        window = advance(bytes, window, entry / 32, gain(state, rules), x, &medials);
        state = usize::from(entry % 32);
    }
    let answer = answer_at(word, word.len(), state, window.count);
    if let Ok(_) = answer {
        put_last(bytes, window.count, window.last, &medials);
        return answer;
    }
    *bytes = [0; Word::KEY];
    answer
}
