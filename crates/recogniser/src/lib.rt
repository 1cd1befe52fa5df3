// The answer for a word of code values, and no more: how many syllables it has, or why it is refused.
#![tactic(auto)]

pub mod foreign; // foreign.rt: the first foreign value
pub mod answer; // answer.rt: the answers, and which one is due where a pass has stopped
pub mod walk; // walk.rt: one pass for the answer alone
