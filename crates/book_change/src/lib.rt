// The calls that change a book, for a word that is in storage order already.
#![tactic(auto)]

pub mod change; // change.rt: add and remove
