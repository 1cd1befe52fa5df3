// The weights of document 01, "Weights": of heads, independent vowels and medial groups.
ghost use Rattle.std.specs.Prelude.{◌≡◌};
ghost use Rattle.letters.specs.Weights.{head_weight, independent_vowel_weight, medial_set_weight, medial_table};

// What stands in the table for a set of medials that is no group: Y and R together.
const FORBIDDEN: u8 = 255;

// The weights of the sets of medials, by the sum of their members: Y 1, R 2, W 4, H 8.
const MEDIAL_WEIGHTS: [u8; 16] = [
    0, 1, 2, FORBIDDEN, 3, 5, 6, FORBIDDEN, 4, 7, 8, FORBIDDEN, 9, 10, 11, FORBIDDEN,
];

// The weight of a head, worked out from the unbroken ranges of heads; an independent vowel weighs as the last consonant does, and what is no head
// weighs 0. The compiler makes comparisons of the ranges, and no list: `differential/tests/stored_lists.rs` takes apart what it made.
pub fn head_weight(x: u16) -> u8
    ensures { result ≡ head_weight x }
{
    match x {
        0x1000..=0x1021 => (x - 0x1000) as u8 + 13,
        0x1023..=0x1027 | 0x1029..=0x102A => 46,
        0x1040..=0x1049 => (x - 0x1040) as u8 + 3,
        0x104A..=0x104B => (x - 0x104A) as u8 + 1,
        0x104C..=0x104F => (x - 0x104C) as u8 + 47,
        _ => 0,
    }
}

// The vowel weight of an independent vowel; any other value has none, and 0 stands for it.
pub fn independent_vowel_weight(x: u16) -> u8
    ensures { result ≡ independent_vowel_weight x }
{
    match x {
        0x1023..=0x1027 => (x - 0x1023) as u8 + 2,
        0x1029..=0x102A => (x - 0x1029) as u8 + 8,
        _ => 0,
    }
}

// The table of the sets of medials, for callers that look many up: a constant array is stored wherever it is named.
pub fn medial_weights() -> [u8; 16]
    ensures { result ≡ medial_table }
{
    MEDIAL_WEIGHTS
}

// The weight of a set of medials, the empty one too; a set with Y and R is no group's.
pub fn medial_weight(set: u8) -> Option<u8>
    ensures { result ≡ medial_set_weight set }
{
    if set >= 16 {
        return None;
    }
    let weight = MEDIAL_WEIGHTS[usize::from(set)];
    (weight != FORBIDDEN).then_some(weight)
}
