// The states of a reading, and what each value does to them.
#![tactic(auto)]

pub mod classes; // classes.rt: the class of a value, and whether it begins a syllable
pub mod tables; // tables.rt: the next state and the count, by class and state
