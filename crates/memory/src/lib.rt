// Copies from slice to slice, and moves within one.
#![tactic(auto)]

pub mod copies;
