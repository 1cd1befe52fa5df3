// Opening a book: whether a buffer is one, with its live records counted, or the first place where it is none.
#![tactic(auto)]

pub mod chain; // chain.rt: the earlier live records with the same hash
pub mod open; // open.rt: one pass over the records
pub mod record; // record.rt: whether a record is live, and where the next begins
