// Storage order: the form in which a word is stored, whatever values it has.
#![tactic(auto)]

ghost use Rattle.std.specs.Prelude.{◌≡◌, ◌++◌, ℕ, ◌+◌, ◌-◌, ◌≤◌, ◌<◌, nat_lt, length, take, drop, get_or};
ghost use Rattle.letters.specs.Choice.{pick};
ghost use Rattle.formula.specs.Limits.{limit};
ghost use Rattle.formula.specs.Held.{word_of};
ghost use Rattle.storage.specs.Stored.{rank, goes_behind, insert, insert_by, makes_letter, stored_form};
ghost use Rattle.storage.specs.Putting.{rank_table, Room, FrontRoom, FrontPut, MarkRoom, PartRoom};

use formula::Word;
use memory::copies::put_all;

// The independent vowel that a mark or a stacker behind it can change.
pub const VOWEL_U: u16 = 0x1025;

const LONG_VOWEL_U: u16 = 0x1026;

const LETTER_NYA: u16 = 0x1009;

pub const MARK_II: u16 = 0x102E;

const STACKER: u16 = 0x1039;

const KILLER: u16 = 0x103A;

// The number of run marks, which is the rank of every other value.
pub const MARKS: u8 = 16;

// The ranks of the values 1000 to 103F, among which are all marks.
pub type RankTable = [u8; 64];

// Where the stored values begin in the array, and the rank of the first of them.
#[derive(Clone, Copy)]
struct Front {
    place: usize,
    rank: u8,
}

// The stored form of a word. From its last value to its first, each is put in front of the stored form of what follows it.
pub fn stored(word: &[u16]) -> Word
    requires { length word.now ≤ limit }
    ensures { result ≡ word_of (stored_form word.now) }
{
    let end = word.len();
    let ranks = rank_table();
    let mut values = [0; Word::LIMIT];
    let mut front = Front {
        place: end,
        rank: MARKS,
    };
    for x in word.iter().rev() {
        front = put_front(&ranks, &mut values, front, *x);
    }
    let place = front.place;
    if place == 0 {
        return Word { values, count: end };
    }
    part(&values, place, end)
}

// The values from one place to another as a word.
fn part(values: &[u16], front: usize, end: usize) -> Word
    requires { PartRoom values.now front end }
    ensures { result ≡ word_of (take (end - front) (drop front values.now)) }
{
    let mut held = [0; Word::LIMIT];
    put_all(&values[front..end], &mut held, 0);
    Word {
        values: held,
        count: end - front,
    }
}

// Puts a value in front of the stored values; where they begin then. Modulo 16 only a mark has a rank above 0, so that one
// test tells whether it has to go behind the first value.
fn put_front(ranks: &RankTable, values: &mut [u16; Word::LIMIT], front: Front, x: u16) -> Front
    requires { FrontRoom ranks.now values.old front }
    ensures { FrontPut values.old values.new front.place x result }
{
    let place = front.place;
    let own = rank(ranks, x);
    if front.rank < own % MARKS {
        insert_mark(ranks, values, place - 1, x);
        return Front {
            place: place - 1,
            rank: front.rank,
        };
    }
    if x == VOWEL_U {
        return put_vowel(values, place);
    }
    values[place - 1] = x;
    Front {
        place: place - 1,
        rank: own,
    }
}

// Puts a mark in front of the sorted values behind a place: it goes behind those of the first run that rank below it.
fn insert_mark(ranks: &RankTable, values: &mut [u16; Word::LIMIT], at: usize, mark: u16)
    requires { MarkRoom ranks.now values.old at mark }
    ensures { values.new ≡ take at values.old ++ insert mark (drop (at + 1) values.old) }
{
    insert_ranked(values, at, mark, rank(ranks, mark), |x| rank(ranks, x));
}

// Puts an element in front of the sorted ones behind a place: it goes behind the first of them, as far as they rank below it.
pub fn insert_ranked<T: Copy, F: Fn(T) -> u8>(
    sorted: &mut [T; Word::LIMIT],
    at: usize,
    x: T,
    own: u8,
    rank: F,
)
    requires room { at < limit }
    requires callable { F.IsAlwaysCallable rank }
    ensures { (value : T → ℕ) → ((y : T) (r : ℕ) → F.post rank y r → goes_behind (value x) (value y) ≡ nat_lt r own)
        → sorted.new ≡ take at sorted.old ++ insert_by value x (drop (at + 1) sorted.old) }
{
    // No `for`: what is passed tells how far it goes, and an iterator would borrow the list that is written.
    let mut place = at;
    while place + 1 < Word::LIMIT && rank(sorted[place + 1]) < own {
        sorted[place] = sorted[place + 1];
        place += 1;
    }
    sorted[place] = x;
}

// Puts a 1025 in front of the stored values that begin at a place: with a 102E there it becomes one value.
fn put_vowel(values: &mut [u16; Word::LIMIT], place: usize) -> Front
    requires { Room values.old place }
    ensures { FrontPut values.old values.new place 0x1025 result }
{
    let next = value_at(values, place);
    if next == MARK_II {
        values[place] = LONG_VOWEL_U;
        return Front { place, rank: MARKS };
    }
    values[place - 1] = vowel_before(next);
    Front {
        place: place - 1,
        rank: MARKS,
    }
}

// What a 1025 becomes before another value than 102E.
#[tactic(auto, unfolding(crate::specs::Stored::makes_letter, letters::specs::Choice::pick))]
fn vowel_before(next: u16) -> u16
    ensures { result ≡ pick (makes_letter 0x1025 next) 0x1009 0x1025 }
{
    match next {
        KILLER | STACKER => LETTER_NYA,
        _ => VOWEL_U,
    }
}

// The value at a place, and 0 past the end.
fn value_at(values: &[u16; Word::LIMIT], place: usize) -> u16
    requires { length values.now ≡ limit }
    ensures { result ≡ get_or values.now place 0 }
{
    values.get(place).copied().unwrap_or(0)
}

// The place of a mark in the storage order; the number of marks for any other value.
pub fn rank(ranks: &RankTable, x: u16) -> u8
    requires { ranks.now ≡ rank_table }
    ensures { result ≡ rank x }
{
    if x / 64 == 0x40 {
        ranks[usize::from(x % 64)]
    } else {
        MARKS
    }
}

// A table in memory, made once a word. A match on the value would be a branch on whether it is a mark, which is seldom foretold.
pub fn rank_table() -> RankTable
    ensures { result ≡ rank_table }
{
    let mut ranks = [MARKS; 64];
    ranks[0x3B] = 0;
    ranks[0x3C] = 1;
    ranks[0x3D] = 2;
    ranks[0x3E] = 3;
    ranks[0x31] = 4;
    ranks[0x2D] = 5;
    ranks[0x2E] = 6;
    ranks[0x32] = 7;
    ranks[0x2F] = 8;
    ranks[0x30] = 9;
    ranks[0x2B] = 10;
    ranks[0x2C] = 11;
    ranks[0x36] = 12;
    ranks[0x3A] = 13;
    ranks[0x37] = 14;
    ranks[0x38] = 15;
    ranks
}
