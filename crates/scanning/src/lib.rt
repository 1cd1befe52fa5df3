// One pass over a word: how far it is read, its syllables, and where each begins.
#![tactic(auto)]

ghost use Rattle.std.specs.Prelude.{◌≤◌, length};
ghost use Rattle.formula.specs.Limits.{limit};
ghost use Rattle.scanning.specs.Scanned.{Scanned};

use formula::Word;
use syllables::window::{closed_by, window_after};
use transitions::classes::begins;
use transitions::tables::{Rules, gain, next, rules_of};

// The values before `at` are read, and the one at `at` is refused, unless it is the end.
// Two arrays: one of pairs is no plainer, since a reading takes the syllables alone.
#[derive(Clone, Copy)]
pub struct Scan {
    pub at: usize,
    pub state: usize,
    pub count: usize,
    pub syllables: [u64; Word::LIMIT],
    pub starts: [u8; Word::LIMIT],
}

pub fn scan_word(word: &[u16]) -> Scan
    requires { length word.now ≤ limit }
    ensures { Scanned word.now result }
{
    let mut window = Word::unread();
    let mut state = 0;
    let mut syllables = [0; Word::LIMIT];
    let mut starts = [0u8; Word::LIMIT];
    for (at, &x) in word.iter().enumerate() {
        let rules = rules_of(x);
        let entry = next(state, rules);
        if entry == Rules::REFUSED {
            return Scan {
                at,
                state,
                count: window.count,
                syllables,
                starts,
            };
        }
        let change = entry / 32;
        if begins(x) {
            let count = window.count;
            let finished = count.saturating_sub(1);
            syllables[finished] = closed_by(x, window.last);
            // A cast: `try_from` is no plainer, since it would want an arm for a place past the limit, which no word has.
            starts[count] = at as u8;
        }
        window = window_after(window, change, gain(state, rules), x);
        state = usize::from(entry % 32);
    }
    let finished = window.count.saturating_sub(1);
    syllables[finished] = window.last;
    Scan {
        at: word.len(),
        state,
        count: window.count,
        syllables,
        starts,
    }
}
