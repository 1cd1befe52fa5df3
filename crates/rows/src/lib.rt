// The laws of rows of syllables, for lists of any length. There is no code: specs/ and proofs/ hold what the readers' proofs cite.
#![tactic(auto)]
