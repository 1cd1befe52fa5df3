// The part of a syllable by its record: how many values it has, and what is written.
ghost use Rattle.std.specs.Prelude.{◌+◌, ◌≤◌, length};
ghost use Rattle.syllable_record.specs.Decode.{syllable_of};
ghost use Rattle.syllable_text.specs.Part.{part_after, PartPut, PartSize};

use crate::text::{final_text, head_value, medial_text, tone_text, vowel_text};
use formula::Word;
use syllable_record::Record;

// How many values the syllable's part has.
pub fn part_size(next: [u8; Word::RECORD]) -> usize
    ensures { PartSize next result }
{
    let next = Record::from(next);
    let medial = medial_text(next.medial);
    let vowel = vowel_text(next.vowel, next.tall);
    let last = final_text(next.letter, next.second_letter, next.link);
    let tone = tone_text(next.tone);
    1 + medial.len() + vowel.len() + last.len() + tone.len()
}

// Writes the part of a syllable that stands behind one with the link, and gives the place behind the part.
pub fn put_part(output: &mut [u16], at: usize, link: u8, next: [u8; Word::RECORD]) -> usize
    requires { at + length (part_after link (syllable_of next)) ≤ length output.old }
    ensures { PartPut output.old output.new at (part_after link (syllable_of next)) result }
{
    let next = Record::from(next);
    output[at] = head_value(link, next.head);
    let vowel_at = medial_text(next.medial).put(output, at + 1);
    let final_at = vowel_text(next.vowel, next.tall).put(output, vowel_at);
    let tone_at = final_text(next.letter, next.second_letter, next.link).put(output, final_at);
    tone_text(next.tone).put(output, tone_at)
}
