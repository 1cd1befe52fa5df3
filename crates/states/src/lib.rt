// The states of a reading, and what each value does to them. There is no code: specs/ and proofs/ hold what the tables are made of.
#![tactic(auto)]
