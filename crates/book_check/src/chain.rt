// Chains of live records by a hash of their words, so that a repeated word is found without a comparison of every pair.
ghost use Rattle.std.specs.Prelude.{◌≡◌, List, ◌+◌, ◌<◌};
ghost use Rattle.entries.specs.Limits.{book_limit};
ghost use Rattle.entries.specs.Entries.{Entry, word_at, holds};
ghost use Rattle.book_check.specs.Chain.{hash_of, buckets, Chained, Ready};

use crate::open::BOOK_LIMIT;
use crate::record::word_of;

// How many chains there are.
pub(crate) const BUCKETS: usize = 1024;

// The chain of a word, from its bytes.
pub(crate) fn bucket_of(word: &[u8]) -> usize
    ensures { (result ≡ hash_of word.now 0) × (result < buckets) }
{
    let mut hash = 0;
    for byte in word {
        hash = (hash * 31 + usize::from(*byte)) % BUCKETS;
    }
    hash
}

// The link to a start: one more than it, since 0 ends a chain.
pub(crate) fn link_to(start: usize) -> u16
    requires { start < book_limit }
    ensures { result ≡ start + 1 }
{
    (start + 1) as u16
}

// Whether an earlier live record has the word of the record at a place. It walks the chain of the word, the latest record first.
pub(crate) fn is_repeated(
    book: &[u8],
    at: usize,
    bucket: usize,
    heads: &[u16; BUCKETS],
    links: &[u16; BOOK_LIMIT],
) -> bool
    requires { Ready book.now at bucket heads.now links.now }
    ensures { (entries : List Entry) → Chained book.now at entries heads.now links.now → result ≡ holds entries (word_at book.now at) }
{
    let word = word_of(book, at);
    // No `for`: the next of a chain is known from the one before it alone.
    let mut place = usize::from(heads[bucket]);
    while 0 < place {
        let start = place - 1;
        if word_of(book, start) == word {
            return true;
        }
        place = usize::from(links[start]);
    }
    false
}
