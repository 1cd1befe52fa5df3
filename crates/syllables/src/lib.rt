// Syllables packed in one number each, as a reading keeps them: their parts, and the last of them after one value more.
#![tactic(auto)]

pub mod parts; // parts.rt: the parts of a packed syllable
pub mod window; // window.rt: the last syllable after a value
