// A chunk of input to lines. A line may begin in one chunk and end in another, so its first bytes are held beside the
// chunk, pending.
#![tactic(auto)]

ghost use Rattle.std.specs.Prelude.{◌≤◌, length};
ghost use Rattle.line_splitting.specs.Taken.{held_limit, EndFound, Holds, Ready, Taken};
ghost use Rattle.line_splitting.specs.Following.{Passes};

use formula::Word;
use line_printing::{PRINTED_LIMIT, Task, put_line};
use memory::copies::put_all;

// The most bytes of a line that are held: one more than the most of a line that is not refused for its length.
pub const HELD_LIMIT: usize = Word::LINE_LIMIT + 1;

// How far a chunk is: the place in it, how many bytes of the open line are held, the number of the last line that ended, and how many
// bytes of the output are used.
#[derive(Clone, Copy)]
pub struct Progress {
    pub at: usize,
    pub held: usize,
    pub number: u64,
    pub used: usize,
}

// The place of the first 0A of a chunk from a place on, or the chunk's end.
fn line_end(chunk: &[u8], from: usize) -> usize
    requires { from ≤ length chunk.now }
    ensures { EndFound chunk.now from result }
{
    let mut at = from;
    while at < chunk.len() {
        if chunk[at] == b'\n' {
            return at;
        }
        at += 1;
    }
    at
}

// Puts bytes behind those that are held, as far as there is room, and answers how many are held then.
fn hold(pending: &mut [u8], held: usize, part: &[u8]) -> usize
    requires { (held ≤ held_limit) × (held_limit ≤ length pending.old) }
    ensures { Holds pending.old held part.now pending.new result }
{
    let room = HELD_LIMIT - held;
    let count = if part.len() < room { part.len() } else { room };
    put_all(&part[..count], pending, held);
    held + count
}

// Takes the open line to its end or to the chunk's, and prints it where it ended.
fn take_line<T: Task>(
    chunk: &[u8],
    pending: &mut [u8],
    out: &mut [u8],
    progress: Progress,
) -> Progress
    requires { Ready chunk.now pending.old out.old progress }
    ensures { Taken T.Answers chunk.now pending.old out.old progress pending.new out.new result }
{
    let at = progress.at;
    let number = progress.number;
    let used = progress.used;
    let end = line_end(chunk, at);
    let held = hold(pending, progress.held, &chunk[at..end]);
    if end == chunk.len() {
        return Progress {
            at: end,
            held,
            number,
            used,
        };
    }
    let printed = put_line::<T>(&mut out[used..], number + 1, &pending[..held]);
    Progress {
        at: end + 1,
        held: 0,
        number: number + 1,
        used: used + printed,
    }
}

// Takes lines from a place of the chunk until the chunk is used up or the output has no room for one more.
pub fn pass_chunk<T: Task>(
    chunk: &[u8],
    pending: &mut [u8],
    out: &mut [u8],
    progress: Progress,
) -> Progress
    requires { Ready chunk.now pending.old out.old progress }
    ensures { Passes T.Answers chunk.now pending.old out.old progress pending.new out.new result }
{
    // No `for`: each turn goes on by as much as its line took.
    let mut reached = progress;
    while reached.at < chunk.len() && reached.used + PRINTED_LIMIT <= out.len() {
        reached = take_line::<T>(chunk, pending, out, reached);
    }
    reached
}
