// The program over lists of labels made by another implementation, which also made what it must print.
#![tactic(auto)]

use line_printing::LabelSkeletons;

fn main(rt: HostRuntime) {
    listing::running::run::<LabelSkeletons>(&rt);
}
