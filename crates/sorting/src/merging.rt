// A merge sort of the starts of records, by their words.
ghost use Rattle.std.specs.Prelude.{◌≡◌, ◌≤◌, ◌<◌, length, take};
ghost use Rattle.entries.specs.Limits.{book_limit};
ghost use Rattle.book_keys.specs.Filing.{HasKey};
ghost use Rattle.sorting.specs.Sorting.{in_order, goes_before, falls, takes_next, parts_merged, merged_front};
ghost use Rattle.sorting.specs.Sorting.{Sortable, Mergeable, MergeReady, Joinable};

use book_keys::KEY_ROOM;
use book_order::is_before;
use memory::copies::put_all;

// So few starts are merged without a look whether they are in order as they stand.
const FEW: usize = 4;

// Whether the record at the first start goes before the one at the second.
fn goes_before(book: &[u8], keys: &[u8; KEY_ROOM], first: u16, second: u16) -> bool
    requires { (length book.now ≤ book_limit) × HasKey book.now keys.now first × HasKey book.now keys.now second }
    ensures { result ≡ goes_before book.now first second }
{
    is_before(book, keys, usize::from(first), usize::from(second))
}

// Whether the next start to take is the one at `second`: where the first part is at its end, or the record at `second` goes before.
fn is_second_next(
    book: &[u8],
    keys: &[u8; KEY_ROOM],
    starts: &[u16],
    first: usize,
    middle: usize,
    second: usize,
) -> bool
    requires { MergeReady book.now keys.now starts.now first middle second }
    ensures { result ≡ takes_next book.now starts.now first middle second }
{
    if first == middle {
        return true;
    }
    if second == starts.len() {
        return false;
    }
    goes_before(book, keys, starts[second], starts[first])
}

// Merges the parts before and from `middle` into `room`.
fn merge(book: &[u8], keys: &[u8; KEY_ROOM], starts: &[u16], middle: usize, room: &mut [u16])
    requires { Mergeable book.now keys.now starts.now middle × (length starts.now ≤ length room.old) }
    ensures { room.new ≡ merged_front book.now starts.now middle room.old }
{
    let mut first = 0;
    let mut second = middle;
    for next in 0..starts.len() {
        if is_second_next(book, keys, starts, first, middle, second) {
            room[next] = starts[second];
            second += 1;
        } else {
            room[next] = starts[first];
            first += 1;
        }
    }
}

// Merges the parts before and from `middle`, each in order, unless they are in order as they stand; `room` is written over.
fn join(book: &[u8], keys: &[u8; KEY_ROOM], starts: &mut [u16], middle: usize, room: &mut [u16])
    requires { Joinable book.now keys.now starts.old middle × (length starts.old ≤ length room.old) }
    ensures { starts.new ≡ parts_merged book.now starts.old middle }
{
    if starts.len() <= FEW || goes_before(book, keys, starts[middle], starts[middle - 1]) {
        merge(book, keys, starts, middle, room);
        let count = starts.len();
        put_all(&room[..count], starts, 0);
    }
}

// Sorts the starts by halves; `room` is written over.
fn sort_halves(book: &[u8], keys: &[u8; KEY_ROOM], starts: &mut [u16], room: &mut [u16])
    requires { Sortable book.now keys.now starts.old × (length starts.old ≤ length room.old) }
    ensures { starts.new ≡ in_order (goes_before book.now) starts.old }
{
    if 1 < starts.len() {
        let middle = starts.len() / 2;
        sort_halves(book, keys, &mut starts[..middle], room);
        sort_halves(book, keys, &mut starts[middle..], room);
        join(book, keys, starts, middle, room);
    }
}

// Whether each record goes before the one that its start follows.
fn falls(book: &[u8], keys: &[u8; KEY_ROOM], starts: &[u16]) -> bool
    requires { Sortable book.now keys.now starts.now }
    ensures { result ≡ falls (goes_before book.now) starts.now }
{
    for next in 1..starts.len() {
        if !goes_before(book, keys, starts[next], starts[next - 1]) {
            return false;
        }
    }
    true
}

// Sorts the starts by the words of their records; `room` is written over.
pub(crate) fn sort(book: &[u8], keys: &[u8; KEY_ROOM], starts: &mut [u16], room: &mut [u16])
    requires { Sortable book.now keys.now starts.old × (length starts.old ≤ length room.old) }
    ensures { starts.new ≡ in_order (goes_before book.now) starts.old }
{
    if falls(book, keys, starts) {
        starts.reverse();
    } else {
        sort_halves(book, keys, starts, room);
    }
}
