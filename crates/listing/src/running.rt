// The running of a list: standard input to standard output, each by 64 KiB.
ghost use Rattle.std.specs.Prelude.{◌≡◌, ◌≤◌, ◌<◌, ◌↔◌, true, length};
ghost use Rattle.std.specs.IoError.{error_kind};
ghost use Rattle.std.specs.declared.io.ErrorKind.TheVariants.{Interrupted};
ghost use Rattle.listing.specs.Running.{bytes_of, ReadsOn, EndReady, Finishes, ChunkReady, ChunkAnswers};

use line_printing::{Task, put_line};
use line_splitting::{HELD_LIMIT, Progress, pass_chunk};
use std::io;
use std::io::{ErrorKind, Read, Write};

// How many bytes a read brings at most, and how many are held to be written.
const BUFFER_SIZE: usize = 65536;

// A proved loop has to end, and nothing says that the input does. So the loops over calls count them, up to a number that no run uses
// up: at a microsecond a call it lasts two years.
const CALLS: u64 = 0x4000_0000_0000;

// What a read answered, and how many calls were left then.
#[derive(Clone, Copy)]
struct Input {
    answer: io::Result<usize>,
    calls: u64,
}

// How the reading ended: at the end of the input, or with a read that failed.
type End = io::Result<()>;

// The line that is open between two reads: how many of its bytes are held, and the number of the last line that ended. All that was
// printed is written by then, so nothing here counts it.
#[derive(Clone, Copy)]
struct OpenLine {
    held: usize,
    number: u64,
}

// A chunk that was passed whole: the line that is open behind it, and how many bytes the writes took, which are all that is printed for
// its lines.
#[derive(Clone, Copy)]
struct Passed {
    line: OpenLine,
    taken: usize,
}

// A chunk at which a write failed: how many bytes the writes took, and how many that were ready they did not.
#[derive(Clone, Copy)]
struct Stopped {
    taken: usize,
    missing: usize,
}

// Says on standard error what failed, and why. It stands apart in the compiled program, so that what std brings to tell it can be told from
// what makes the answers.
#[inline(never)]
fn fail(rt: &HostRuntime, what: &str, error: io::Error) {
    let _ = eprintln!(rt; "{what}: {error}");
}

// Whether a signal interrupted a call. It stands apart as `fail` does, since std tells it by its kinds of errors.
#[inline(never)]
fn is_interrupted(error: &io::Error) -> bool
    ensures { result ≡ true ↔ error_kind error.now ≡ Interrupted }
{
    error.kind() == ErrorKind::Interrupted
}

// How many bytes a read brought, or how it ended the reading: one that brings none has met the end of the input.
fn bytes_of(answer: io::Result<usize>) -> Result<usize, End>
    ensures { result ≡ bytes_of answer }
{
    match answer {
        Ok(0) => Err(Ok(())),
        Ok(count) => Ok(count),
        Err(error) => Err(Err(error)),
    }
}

// Reads once, and again while a signal interrupts the read and calls are left.
fn read_chunk(rt: &HostRuntime, chunk: &mut [u8]) -> Input
    requires { 0 < length chunk.old }
    ensures { ReadsOn (length chunk.new) result }
{
    for calls in (1..=CALLS).rev() {
        match rt.stdin().read(chunk) {
            Err(error) if is_interrupted(&error) => {}
            answer => return Input { answer, calls },
        }
    }
    Input {
        answer: rt.stdin().read(chunk),
        calls: 0,
    }
}

// Writes all bytes, going on where a write took only some of them, and answers how many were taken: fewer than all where a write
// failed.
fn write_whole(rt: &HostRuntime, bytes: &[u8]) -> usize
    ensures { result ≤ length bytes.now }
{
    let mut done = 0;
    for _ in 0..CALLS {
        if done == bytes.len() {
            return done;
        }
        let error = match rt.stdout().write(&bytes[done..]) {
            Ok(0) => io::Error::from_raw_os_error(0),
            Ok(count) => {
                done += count;
                continue;
            }
            Err(error) if is_interrupted(&error) => continue,
            Err(error) => error,
        };
        fail(rt, "standard output", error);
        return done;
    }
    done
}

// Takes all lines of a chunk, and writes what is printed for them.
fn answer_chunk<T: Task>(
    rt: &HostRuntime,
    chunk: &[u8],
    pending: &mut [u8],
    out: &mut [u8],
    current: OpenLine,
) -> Result<Passed, Stopped>
    requires { ChunkReady chunk.now pending.old out.old current }
    ensures { ChunkAnswers T.Answers chunk.now pending.old current pending.new result }
{
    let mut reached = Progress {
        at: 0,
        held: current.held,
        number: current.number,
        used: 0,
    };
    // No `for`: each turn goes on by as much as its lines took.
    let mut taken = 0;
    while reached.at < chunk.len() {
        reached = pass_chunk::<T>(chunk, pending, out, reached);
        let used = reached.used;
        let written = write_whole(rt, &out[..used]);
        let missing = used - written;
        taken += written;
        if 0 < missing {
            return Err(Stopped { taken, missing });
        }
        reached.used = 0;
    }
    let line = OpenLine {
        held: reached.held,
        number: reached.number,
    };
    Ok(Passed { line, taken })
}

// Prints the open line at the end of the input, where it has a byte, and answers how many bytes are ready to be written. Where a read
// failed, that is said, and the line that it broke off is not printed.
fn finish<T: Task>(
    rt: &HostRuntime,
    end: End,
    pending: &[u8],
    out: &mut [u8],
    current: OpenLine,
) -> usize
    requires { EndReady pending.now out.old current }
    ensures { Finishes T.Answers end pending.now out.old current out.new result }
{
    if let Err(error) = end {
        fail(rt, "standard input", error);
        return 0;
    }
    let held = current.held;
    if held == 0 {
        return 0;
    }
    put_line::<T>(out, current.number + 1, &pending[..held])
}

// Runs a list to its end, with the same asked of each line. What is printed for the lines of a chunk is written before the next read, so
// that at a terminal and at the other end of a pipe each line is answered at once.
//
// No contract says what a read brings or what a write takes, so this is left to be read by eye: that `answer` in `read_chunk` is what
// the read answered, and the one that is looked at here; that the bytes that are handed to the write, by `write_whole` from
// `answer_chunk` and from here, are those at the front of the output; and that each chunk that is read is answered here, from its front,
// until a read brings no bytes.
pub fn run<T: Task>(rt: &HostRuntime) {
    let mut chunk = [0; BUFFER_SIZE];
    let mut pending = [0; HELD_LIMIT];
    let mut out = [0; BUFFER_SIZE];
    let mut current = OpenLine { held: 0, number: 0 };
    for _ in 0..CALLS {
        let input = read_chunk(rt, &mut chunk);
        let count = match bytes_of(input.answer) {
            Ok(count) => count,
            Err(end) => {
                let ready = finish::<T>(rt, end, &pending, &mut out, current);
                write_whole(rt, &out[..ready]);
                return;
            }
        };
        let passed = answer_chunk::<T>(rt, &chunk[..count], &mut pending, &mut out, current);
        let Ok(Passed { line, taken: _ }) = passed else {
            return;
        };
        current = line;
    }
}
