// Single values of the Myanmar chart: their kinds and their weights.
#![tactic(auto)]

pub mod kind; // kind.rt: the class of every 16-bit value
pub mod weight; // weight.rt: what heads, independent vowels and medial groups weigh
