// The running of a list from standard input to standard output.
#![tactic(auto)]

pub mod running; // running.rt: standard input to standard output
