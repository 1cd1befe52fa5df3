// The record at a place of a buffer, as a walk over the records needs it.
ghost use Rattle.std.specs.Prelude.{◌≡◌, ◌+◌, ◌≤◌, ◌<◌, T, eqb, length, get_or};
ghost use Rattle.entries.specs.Limits.{book_limit, head_size};
ghost use Rattle.entries.specs.Entries.{is_framed};
ghost use Rattle.book_check.specs.Chain.{word_bytes};

use book_frame::HEAD;

// Whether the record is live, and how many bytes it has: the next one begins behind them. A walk stays a `while` loop, no plainer as an iterator of our own,
// since each step is as long as the record at the place.
#[derive(Clone, Copy)]
pub struct Record {
    pub live: bool,
    pub size: usize,
}

impl Record {
    // The record whose mark and count stand at a place.
    pub fn at(book: &[u8], place: usize) -> Record
        requires { (length book.now ≤ book_limit) × (place + 2 < length book.now) }
        ensures live { result.live ≡ eqb (get_or book.now (place + 1) 0) 0x57 }
        ensures size { result.size ≡ head_size + get_or book.now (place + 2) 0 }
    {
        Record {
            live: book[place + 1] == b'W',
            size: HEAD + usize::from(book[place + 2]),
        }
    }
}

// The bytes of the word of the record at a place.
pub fn word_of(book: &[u8], at: usize) -> &[u8]
    requires { (length book.now ≤ book_limit) × T (is_framed book.now at) }
    ensures { result.now ≡ word_bytes book.now at }
{
    let from = at + HEAD;
    &book[from..from + usize::from(book[at + 2])]
}
