// The live records of a book, each with its key: the number of its syllables and their weights.
#![tactic(auto)]

ghost use Rattle.std.specs.Prelude.{◌≡◌, ◌∷◌, ◌+◌, ◌*◌, ◌≤◌, ◌<◌, T, length, take, drop};
ghost use Rattle.std.proofs.lemmas.List.Edits.{sets};
ghost use Rattle.formula.specs.Limits.{limit};
ghost use Rattle.recogniser.specs.Answer.{Readable};
ghost use Rattle.weighing.specs.Keys.{used_bytes};
ghost use Rattle.entries.specs.Limits.{book_limit};
ghost use Rattle.entries.specs.Entries.{word_at, is_framed};
ghost use Rattle.entries.specs.Book.{Opened};
ghost use Rattle.book_keys.specs.Filing.{row_of, filed_key, most_live, weights_at, FiledRight};

use book_frame::{HEAD, has_mark, values_of};
use formula::Word;
use keying::fill::fill;

// The bytes for the keys of a book: those of the record at a start stand from 6 times the start on.
pub const KEY_ROOM: usize = 98304;

// The most live records of a book.
pub const MOST_LIVE: usize = 2048;

// So many bytes from a place on, or as many of them as there are.
pub fn part(bytes: &[u8], from: usize, count: usize) -> &[u8]
    ensures { result.now ≡ take count (drop from bytes.now) }
{
    let Some(rest) = bytes.get(from..) else {
        return &[];
    };
    rest.get(..count).unwrap_or(rest)
}

// The weights of the key that is filed for the record at a start.
pub fn weights_at(keys: &[u8], start: u16) -> &[u8]
    ensures { result.now ≡ weights_at keys.now start }
{
    let from = Word::WEIGHTS * usize::from(start);
    match keys.get(from) {
        Some(count) => part(keys, from + 1, Word::WEIGHTS * usize::from(*count)),
        None => &[],
    }
}

// Puts the number of syllables and the used bytes of a key at a place.
fn put_key(keys: &mut [u8; KEY_ROOM], from: usize, key: &[u8], count: usize)
    requires { (count ≤ limit) × (used_bytes count ≤ length key.now) × (from + (1 + used_bytes count) ≤ length keys.old) }
    ensures { keys.new ≡ sets keys.old from (count ∷ take (used_bytes count) key.now) }
{
    keys[from] = count as u8;
    let used = Word::WEIGHTS * count;
    keys[from + 1..from + 1 + used].copy_from_slice(&key[..used]);
}

// Files the key of the record at a place, whose word is readable.
fn file_key(book: &[u8], at: usize, keys: &mut [u8; KEY_ROOM])
    requires { (length book.now ≤ book_limit) × T (is_framed book.now at) × Readable (word_at book.now at) }
    ensures { keys.new ≡ sets keys.old (used_bytes at) (filed_key (row_of (word_at book.now at))) }
{
    let count = usize::from(book[at + 2]);
    let values = values_of(book, at + HEAD, count);
    let mut key = [0; Word::KEY];
    if let Ok(number) = fill(&values[..count], &mut key) {
        put_key(keys, Word::WEIGHTS * at, &key, number);
    }
}

// Collects the starts of the live records, in their order, at the front of `starts`, and files the key of each. Gives how many there are.
pub fn file_records(
    book: &[u8],
    free: usize,
    keys: &mut [u8; KEY_ROOM],
    starts: &mut [u16],
) -> usize
    requires { Opened book.now free × (most_live ≤ length starts.old) }
    ensures { FiledRight book.now keys.old starts.old keys.new starts.new result }
{
    let mut live = 0;
    // No library's step over the records: how long each is stands in it.
    let mut at = 0;
    while at < free {
        if has_mark(book, at, b"MW") {
            file_key(book, at, keys);
            starts[live] = at as u16;
            live += 1;
        }
        at += HEAD + usize::from(book[at + 2]);
    }
    live
}
