// One syllable record to the values of its syllable's part.
#![tactic(auto, unfolding(letters::specs::Choice::pick, syllable_record::specs::Decode::medial_of_weight, syllable_record::specs::Decode::vowel_of_weight, syllable_record::specs::Decode::plain_of_numbers, syllable_record::specs::Decode::final_of_numbers, syllable_record::specs::Decode::tone_of_weight, crate::specs::Part::head_after))]

pub mod part; // part.rt: the values of a part, counted and written
mod text; // text.rt: the values that the numbers of a record stand for
