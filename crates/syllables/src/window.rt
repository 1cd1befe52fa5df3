// The last syllable of a reading after one value more.
ghost use Rattle.std.specs.Prelude.{◌≡◌, ◌≤◌, ◌<◌};
ghost use Rattle.syllables.specs.Window.{packed_limit, begun_by, closed_by, joined_by, last_kept, window_after, Fit};

use formula::Window;
use transitions::classes::begins;

const GREAT_SA: u16 = 0x103F;

// What a value begins a syllable with: great sa is the head 101E.
#[tactic(auto, using(letters::proofs::Picks::picks), unfolding(crate::specs::Window::begun_by))]
fn begun(x: u16) -> u64
    requires { (0x1000 ≤ x) × (x < 0x1100) }
    ensures { (result ≡ begun_by x) × (result < 0x100) }
{
    if x == GREAT_SA {
        return 0x1E;
    }
    u64::from(x - 0x1000)
}

// A syllable that the value x ends: great sa is its final 101E, with link 3.
#[tactic(auto, using(letters::proofs::Picks::picks), unfolding(crate::specs::Window::closed_by))]
pub fn closed_by(x: u16, last: u64) -> u64
    requires { last < packed_limit }
    ensures { result ≡ closed_by x last }
{
    if x == GREAT_SA {
        return last + 0xDF0000;
    }
    last
}

// A syllable with the head that follows it as its final, the link left out: the first, or, where it has a plain one, the second. It is worked out
// where the head begins a syllable, so that the mark that makes it a final has its link alone to add.
fn joined_by(last: u64, head: u64) -> u64
    requires { (last < packed_limit) × (head < 0x100) }
    ensures { result ≡ joined_by last head }
{
    let plain = last / 0x400000 % 2;
    last + ((head + 1) << (16 + 32 * plain))
}

// The last syllable where none is begun, before the value adds to it: the last itself; or, with one syllable fewer, the last two joined.
#[tactic(auto, using(letters::proofs::Picks::picks), unfolding(crate::specs::Window::last_kept))]
fn last_kept(window: Window, change: u8) -> u64
    ensures { result ≡ last_kept change window }
{
    if change == 1 {
        return window.last;
    }
    window.joined
}

// The window after the value x: one syllable more; or as many or one fewer, and the last gains. Where there is one fewer, what is joined is not
// looked at until another follows.
pub fn window_after(window: Window, change: u8, gain: u64, x: u16) -> Window
    requires { Fit change gain x window }
    ensures { result ≡ window_after change gain x window }
{
    if begins(x) {
        let head = begun(x);
        return Window {
            count: window.count + 1,
            last: head,
            joined: joined_by(window.last, head),
        };
    }
    Window {
        count: window.count + usize::from(change) - 1,
        last: last_kept(window, change) + gain,
        joined: window.joined,
    }
}
