// The weights of document 01, "Weights", of a packed syllable.
#![tactic(auto)]

ghost use Rattle.std.specs.Prelude.{◌≡◌, ◌+◌, ◌≤◌};
ghost use Rattle.std.proofs.lemmas.List.Edits.{sets};
ghost use Rattle.letters.specs.Weights.{medial_table};
ghost use Rattle.formula.specs.Limits.{weight_count};
ghost use Rattle.weighing.specs.Keys.{key_limit};
ghost use Rattle.syllable_weights.specs.Weights.{weights_by};

use formula::Word;
use letters::weight::{head_weight, independent_vowel_weight};
use syllables::parts;

// Puts the six weights of a packed syllable at a place of a key, in the order in which they are compared. A head weighs by its value; one that is an I
// has a vowel weight of its own and carries no vowel. A final weighs its number, whichever form it has, and so does a second. The table of medials
// is lent, so that it is stored once a word.
pub fn put_weights(bytes: &mut [u8; Word::KEY], at: usize, packed: u64, medials: &[u8; 16])
    requires { (at + weight_count ≤ key_limit) × (medials.now ≡ medial_table) }
    ensures { bytes.new ≡ sets bytes.old at (weights_by packed) }
{
    let value = 0x1000 + u16::from(parts::head(packed));
    let head = head_weight(value);
    let medial = medials[usize::from(parts::medials(packed))];
    let letter = parts::letter(packed);
    let second = parts::second_letter(packed);
    let vowel = independent_vowel_weight(value) + parts::vowel(packed);
    let tone = parts::tone(packed);
    bytes[at] = head;
    bytes[at + 1] = medial;
    bytes[at + 2] = letter;
    bytes[at + 3] = second;
    bytes[at + 4] = vowel;
    bytes[at + 5] = tone;
}
