// Reads words from standard input, a line each, and prints for each its number with the key of the word, or why it is refused.
#![tactic(auto)]

use line_printing::WordKeys;

fn main(rt: HostRuntime) {
    listing::running::run::<WordKeys>(&rt);
}
