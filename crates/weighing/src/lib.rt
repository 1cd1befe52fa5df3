// The order of lists of numbers, which the standard library's `cmp` tells. There is no code: specs/ and proofs/ hold what the floors above cite.
#![tactic(auto)]
