// Two records of a book in word order.
#![tactic(auto)]

ghost use Rattle.std.specs.Prelude.{◌≡◌, ◌+◌, ◌≤◌, length, get_or};
ghost use Rattle.weighing.specs.Keys.{used_bytes};
ghost use Rattle.weighing.specs.Order.{order_values, front_of, order};
ghost use Rattle.entries.specs.Limits.{book_limit, head_size};
ghost use Rattle.entries.specs.Entries.{entry_at};
ghost use Rattle.book_keys.specs.Filing.{key_room, weights_at, HasKey};
ghost use Rattle.book_order.specs.Order.{file_of, bytes_at, filed_order, before};

use book_frame::HEAD;
use book_keys::{KEY_ROOM, part, weights_at};
use formula::Word;
use std::cmp::Ordering;

// The weights of the key that is filed for the record at a start.
fn filed_weights(keys: &[u8; KEY_ROOM], start: usize) -> &[u8]
    requires { used_bytes start + (1 + used_bytes (get_or keys.now (used_bytes start) 0)) ≤ key_room }
    ensures { result.now ≡ weights_at keys.now start }
{
    let from = Word::WEIGHTS * start;
    let count = usize::from(keys[from]);
    &keys[from + 1..from + 1 + Word::WEIGHTS * count]
}

// The bytes of the word of the record at a start.
fn word_bytes(book: &[u8], start: usize) -> &[u8]
    requires { (length book.now ≤ book_limit) × (start + head_size + get_or book.now (start + 2) 0 ≤ length book.now) }
    ensures { result.now ≡ bytes_at book.now start }
{
    let count = usize::from(book[start + 2]);
    &book[start + HEAD..start + HEAD + count]
}

// Eight bytes as one number, the first highest, which the compiler loads at once.
#[tactic(auto, using(crate::proofs::Fronts::big_endian))]
fn front(bytes: &[u8; 8]) -> u64
    ensures { result ≡ front_of 8 bytes.now }
{
    u64::from_be_bytes(*bytes)
}

// The order of eight bytes and eight others.
fn order_fronts(first: &[u8; 8], second: &[u8; 8]) -> Ordering
    ensures { result ≡ order_values first.now second.now }
{
    front(first).cmp(&front(second))
}

// The order of two keys: where both have eight bytes or more, by these at once, and then by what is left.
fn order_keys(first: &[u8], second: &[u8]) -> Ordering
    ensures { result ≡ order_values first.now second.now }
{
    match (first.split_first_chunk(), second.split_first_chunk()) {
        (Some((one, first_rest)), Some((other, second_rest))) => {
            let order = order_fronts(one, other);
            if order.is_ne() {
                return order;
            }
            first_rest.cmp(second_rest)
        }
        _ => first.cmp(second),
    }
}

// Whether the record at one start stands before the record at another in word order: by the weights of their keys, and where these are the same by the
// values of their words.
pub fn is_before(book: &[u8], keys: &[u8; KEY_ROOM], first: usize, second: usize) -> bool
    requires { (length book.now ≤ book_limit) × HasKey book.now keys.now first × HasKey book.now keys.now second }
    ensures { result ≡ before (entry_at book.now first) (entry_at book.now second) }
{
    let by_weights = order_keys(filed_weights(keys, first), filed_weights(keys, second));
    if by_weights.is_ne() {
        return by_weights.is_lt();
    }
    word_bytes(book, first)
        .cmp(word_bytes(book, second))
        .is_lt()
}

// The bytes of the word of the record at a start, or as many of them as there are.
fn bytes_at(book: &[u8], start: u16) -> &[u8]
    ensures { result.now ≡ bytes_at book.now start }
{
    let at = usize::from(start);
    match book.get(at + 2) {
        Some(count) => part(book, at + HEAD, usize::from(*count)),
        None => &[],
    }
}

// The order of the records at two starts, for a sort by any of the library's calls: by the weights that are filed, and where these are the same by the
// bytes of their words. It asks nothing, neither of the book nor of the keys.
pub fn order(book: &[u8], keys: &[u8], first: u16, second: u16) -> Ordering
    ensures filed { result ≡ filed_order book.now keys.now first second }
    ensures by_words { HasKey book.now keys.now first → HasKey book.now keys.now second → result ≡ order (file_of (entry_at book.now first)) (file_of (entry_at book.now second)) }
{
    let order = order_keys(weights_at(keys, first), weights_at(keys, second));
    if order.is_ne() {
        return order;
    }
    bytes_at(book, first).cmp(bytes_at(book, second))
}

#[cfg(test)]
mod tests {
    use super::*;

    // Five records and their filed keys, with the weights of document 01: ခ at 0, က at 8, အိ at 16 and ဣ at 25, which have the same weights, and the digit ၀ at 33.
    #[test]
    fn weights_decide_before_values(rt: HostRuntime) {
        let book =
            b"MW\x01\0\0\0\0\x01MW\x01\0\0\0\0\x00MW\x02\0\0\0\0\x21\x2DMW\x01\0\0\0\0\x23MW\x01\0\0\0\0\x40";
        let mut keys = [0u8; 210];
        for (start, head, vowel) in [(0, 14, 0), (8, 13, 0), (16, 46, 2), (25, 46, 2), (33, 3, 0)] {
            keys[6 * start] = 1;
            keys[6 * start + 1] = head;
            keys[6 * start + 5] = vowel;
        }
        for (first, second, want) in [
            (8, 0, Ordering::Less),
            (0, 8, Ordering::Greater),
            (0, 16, Ordering::Less),
            (33, 8, Ordering::Less),
            (16, 25, Ordering::Less),
            (25, 16, Ordering::Greater),
            (16, 16, Ordering::Equal),
        ] {
            assert_eq!(rt;
                order(book, &keys, first, second),
                want,
                "{first} and {second}"
            );
        }
    }
}
