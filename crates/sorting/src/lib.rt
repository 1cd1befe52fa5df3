// The live records of a book in word order: all of them, or those that begin with the weights of a query.
#![tactic(auto)]

mod merging; // merging.rt: a merge sort of starts
pub mod records; // records.rt: the records that fit, sorted
