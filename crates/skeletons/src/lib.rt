// The skeleton of a label: its stored form, with the values that look like others replaced.
#![tactic(auto)]

ghost use Rattle.std.specs.Prelude.{◌≡◌, ◌+◌, ◌≤◌, ◌<◌, length};
ghost use Rattle.memory.specs.Put.{Put, Written};
ghost use Rattle.skeletons.specs.Skeleton.{replaced, skeleton_of};
ghost use Rattle.skeletons.specs.Parts.{first_of, size_of};

// The most values of a skeleton.
pub const LIMIT: usize = 73;

// Letters and marks stand before the digits, stops and signs behind them.
const FIRST_DIGIT: u16 = 0x1040;

// The one value that is replaced by two, and the second of them.
const LETTER_O: u16 = 0x1029;

const MEDIAL_RA: u16 = 0x103C;

// What a digit begins with in a skeleton: the letter that it looks like, or itself. So for any other value from 1040 on.
fn digit_first(x: u16) -> u16
    requires { 0x1040 ≤ x }
    ensures { result ≡ first_of x }
{
    match x {
        0x1040 => 0x101D,
        0x1047 => 0x101B,
        _ => x,
    }
}

// What a letter or a mark begins with in a skeleton.
fn letter_first(x: u16) -> u16
    requires { x < 0x1040 }
    ensures { result ≡ first_of x }
{
    match x {
        0x1025 => 0x1009,
        LETTER_O => 0x101E,
        _ => x,
    }
}

// The first value that takes the place of a value: the value itself, unless it looks like another. One choice among all four would be compiled to a table
// of 35 entries, from the least of them to the greatest.
fn first_of(x: u16) -> u16
    ensures { result ≡ first_of x }
{
    if x < FIRST_DIGIT {
        letter_first(x)
    } else {
        digit_first(x)
    }
}

// How many values take its place.
fn size_of(x: u16) -> usize
    ensures { result ≡ size_of x }
{
    if x == LETTER_O { 2 } else { 1 }
}

// How many values the skeleton of a word has.
pub fn measure(word: &[u16]) -> usize
    ensures { result ≡ length (skeleton_of word.now) }
{
    let mut size = 0;
    for x in word {
        size += size_of(*x);
    }
    size
}

// Puts what a value becomes into the output from a place on, and gives the place behind it.
fn put_replaced(output: &mut [u16], at: usize, x: u16) -> usize
    requires { at + length (replaced x) ≤ length output.old }
    ensures { Put output.old at (replaced x) output.new result }
{
    output[at] = first_of(x);
    if x == LETTER_O {
        output[at + 1] = MEDIAL_RA;
        return at + 2;
    }
    at + 1
}

// Puts the skeleton of a word at the front of the output, and tells how many values it has.
pub fn put(word: &[u16], output: &mut [u16]) -> usize
    requires { length (skeleton_of word.now) ≤ length output.old }
    ensures { Written output.old (skeleton_of word.now) output.new result }
{
    let mut next = 0;
    for x in word {
        next = put_replaced(output, next, *x);
    }
    next
}
