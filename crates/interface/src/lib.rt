// The calls for other languages: each answer is one number, whose bits `packing` tells, and each output is lent. `include/jogcairn.h` declares them.
#![tactic(auto)]

pub mod words; // words.rt: the calls on words
pub mod labels; // labels.rt: the calls on labels
pub mod books; // books.rt: the calls on a book
