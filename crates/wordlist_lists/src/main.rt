// The program over word lists made by another implementation, which also made what it must print.
#![tactic(auto)]

use line_printing::WordKeys;

fn main(rt: HostRuntime) {
    listing::running::run::<WordKeys>(&rt);
}
