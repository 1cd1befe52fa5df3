// Collation: the keys of words, and their comparison. Both normalise first.
#![tactic(auto)]

pub mod weigh; // weigh.rt: the weights of a word's stored form
mod heads; // heads.rt: words that their first heads tell apart
pub mod key; // key.rt: the key of a word
pub mod compare; // compare.rt: two words in order
