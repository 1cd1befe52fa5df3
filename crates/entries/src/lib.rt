// What a book is, what the calls answer by its entries, and the laws of both, for buffers of any length. There is no code: the floors above cite specs/ and
// proofs/.
#![tactic(auto)]
