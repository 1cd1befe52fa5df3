// The records whose keys begin with the weights of a query.
#![tactic(auto)]

ghost use Rattle.std.specs.Prelude.{◌≡◌};
ghost use Rattle.book_fitting.specs.Fitting.{has_prefix, KeptRight};

use book_keys::weights_at;

// Whether the weights of the record at a start begin with these.
fn has_prefix(keys: &[u8], start: u16, prefix: &[u8]) -> bool
    ensures { result ≡ has_prefix keys.now prefix.now start }
{
    weights_at(keys, start).starts_with(prefix)
}

// Moves the starts of the records whose weights begin with these to the front, in their order. Gives how many there are.
pub fn keep_fitting(keys: &[u8], prefix: &[u8], starts: &mut [u16]) -> usize
    ensures { KeptRight keys.now prefix.now starts.old starts.new result }
{
    if prefix.is_empty() {
        return starts.len();
    }
    let mut count = 0;
    for next in 0..starts.len() {
        let start = starts[next];
        if has_prefix(keys, start, prefix) {
            starts[count] = start;
            count += 1;
        }
    }
    count
}
