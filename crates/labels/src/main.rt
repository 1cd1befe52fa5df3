// Reads words from standard input, a line each, and prints for each its number with the skeleton of the label, or why it is refused.
#![tactic(auto)]

use line_printing::LabelSkeletons;

fn main(rt: HostRuntime) {
    listing::running::run::<LabelSkeletons>(&rt);
}
