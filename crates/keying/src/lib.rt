// The key of a word, made in the pass that reads it.
#![tactic(auto)]

pub mod fill; // fill.rt: the pass over a word, with its key
