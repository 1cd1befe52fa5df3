// The reader of Myanmar words: a word of code values to its syllables, their records and their parts.
#![tactic(auto)]

pub mod row; // row.rt: the syllables that are read
pub mod read; // read.rt: the syllables of a word, or why it is refused
pub mod records; // records.rt: the record of a syllable by number
pub mod parts; // parts.rt: the part of the word that a syllable is
