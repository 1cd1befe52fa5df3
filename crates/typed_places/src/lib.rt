// Where each value of a stored form was typed: the places of a word, sorted as its values are.
#![tactic(auto)]

ghost use Rattle.std.specs.Prelude.{◌≡◌, ◌++◌, ◌+◌, ◌-◌, ◌≤◌, length, take, drop, get_or, slice_get, replicate};
ghost use Rattle.formula.specs.Limits.{limit};
ghost use Rattle.storage.specs.Stored.{insert_by};
ghost use Rattle.typed_places.specs.Typed.{typed_at, sorted_places, typed_places};
ghost use Rattle.typed_places.specs.Seeking.{PlaceRoom, Filled, SortedRoom, next_kept};

use formula::Word;
use storage::{MARK_II, MARKS, RankTable, VOWEL_U, insert_ranked, rank};

// Places of a word. Those behind the word's places are past its end, where no mark stands, so that a run ends there.
type Places = [usize; Word::LIMIT];

// The place in the word of the value at `place` of its stored form.
pub fn place_in_word(word: &[u16], place: usize) -> Option<usize>
    requires { length word.now ≤ limit }
    ensures { result ≡ slice_get (typed_places word.now) place }
{
    let places = sorted_places(word);
    let mut at = 0;
    for _ in 0..place {
        if word.len() <= at {
            return None;
        }
        at = next_kept(word, &places, at);
    }
    places[..word.len()].get(at).copied()
}

// Behind a place among the sorted ones, the next whose value stays: a 1025 takes up a 102E.
fn next_kept(word: &[u16], places: &Places, at: usize) -> usize
    requires { SortedRoom word.now places.now at }
    ensures { result ≡ next_kept word.now places.now at }
{
    if sorted_value(word, places, at) != VOWEL_U {
        return at + 1;
    }
    if sorted_value(word, places, at + 1) == MARK_II {
        return at + 2;
    }
    at + 1
}

// The value at a place of the sorted ones, and 0 past the end.
fn sorted_value(word: &[u16], places: &Places, at: usize) -> u16
    requires { Filled word.now places.now }
    ensures { result ≡ typed_at word.now (get_or places.now at limit) }
{
    typed_at(word, places.get(at).copied().unwrap_or(Word::LIMIT))
}

// The places of a word, sorted. From its last place to its first, each is put before what follows it.
fn sorted_places(word: &[u16]) -> Places
    requires { length word.now ≤ limit }
    ensures { result ≡ sorted_places word.now ++ replicate (limit - length word.now) limit }
{
    let ranks = storage::rank_table();
    let mut places = [Word::LIMIT; Word::LIMIT];
    for at in (0..word.len()).rev() {
        insert_place(&ranks, word, &mut places, at);
    }
    places
}

// Puts a place before the sorted ones behind it: it goes behind those of the first run whose values rank below its own. Modulo 16
// only a mark has a rank above 0.
fn insert_place(ranks: &RankTable, word: &[u16], places: &mut Places, at: usize)
    requires { PlaceRoom ranks.now places.old at }
    ensures { places.new ≡ take at places.old ++ insert_by (typed_at word.now) at (drop (at + 1) places.old) }
{
    let own = rank(ranks, typed_at(word, at)) % MARKS;
    insert_ranked(
        places,
        at,
        at,
        own,
        |place| rank(ranks, typed_at(word, place)),
    );
}

// The value that was typed at a place, and 0 past the end.
#[tactic(auto, unfolding(crate::specs::Typed::typed_at))]
fn typed_at(word: &[u16], place: usize) -> u16
    ensures { result ≡ typed_at word.now place }
{
    word.get(place).copied().unwrap_or(0)
}
