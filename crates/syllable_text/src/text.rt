// The values that the numbers of a record stand for: of each part of a syllable at most four.
ghost use Rattle.std.specs.Prelude.{◌≡◌, ℕ, ◌+◌, ◌≤◌, List, eqb, length, take};
ghost use Rattle.letters.specs.Marks.{medial_text, vowel_text, tone_text, aa_text};
ghost use Rattle.formula.specs.Syllable.{final_text};
ghost use Rattle.syllable_record.specs.Decode.{medial_of_weight, vowel_of_weight, letter_of_number, plain_of_numbers, final_of_numbers, tone_of_weight};
ghost use Rattle.syllable_text.specs.Part.{head_after, PartPut};

use memory::copies::put_all;
use std::marker::Model;

const YA: u16 = 0x103B;

const RA: u16 = 0x103C;

const WA: u16 = 0x103D;

const HA: u16 = 0x103E;

const MARK_I: u16 = 0x102D;

const MARK_U: u16 = 0x102F;

const MARK_E: u16 = 0x1031;

const MARK_AM: u16 = 0x1036;

const STACKER: u16 = 0x1039;

const KILLER: u16 = 0x103A;

const GREAT_SA: u16 = 0x103F;

// The final number of 1004, whose stacked form is kinzi.
const KINZI_LETTER: u8 = 5;

// A text of at most four values: the first `count` of `values`.
#[derive(Drop)]
pub(crate) struct Text {
    values: [u16; 4],
    count: usize,
}

// Clauses see the values.
impl Model for Text {
    ghost Value = { List ℕ };

    ghost view = { λ text. take text.count text.values };

    ghost invariant = { λ text. text.count ≤ 4 };
}

impl Text {
    // The text of these values.
    fn of<const N: usize>(text: [u16; N]) -> Self
        requires { N ≤ 4 }
        ensures { result ≡ text.entry }
    {
        let mut values = [0; 4];
        values[..N].copy_from_slice(&text);
        Self { values, count: N }
    }

    pub(crate) fn len(&self) -> usize
        ensures { result ≡ length self.now }
    {
        self.count
    }

    // Writes the values from a place on, and gives the place behind them. Most texts are empty, and a copy of nothing costs a call.
    pub(crate) fn put(self, output: &mut [u16], at: usize) -> usize
        requires { at + length self ≤ length output.old }
        ensures { PartPut output.old output.new at self result }
    {
        let Self { values, count } = self;
        if count == 0 {
            return at;
        }
        put_all(&values[..count], output, at);
        at + count
    }
}

// The head behind a syllable with the link: with a great sa it is written as one value.
pub(crate) fn head_value(link: u8, head: u8) -> u16
    ensures { result ≡ head_after link (0x1000 + head) }
{
    if link == 3 {
        GREAT_SA
    } else {
        0x1000 + head as u16
    }
}

// The medial group of a weight.
pub(crate) fn medial_text(weight: u8) -> Text
    ensures { result ≡ medial_text (medial_of_weight weight) }
{
    match weight {
        1 => Text::of([YA]),
        2 => Text::of([RA]),
        3 => Text::of([WA]),
        4 => Text::of([HA]),
        5 => Text::of([YA, WA]),
        6 => Text::of([RA, WA]),
        7 => Text::of([YA, HA]),
        8 => Text::of([RA, HA]),
        9 => Text::of([WA, HA]),
        10 => Text::of([YA, WA, HA]),
        11 => Text::of([RA, WA, HA]),
        _ => Text::of([]),
    }
}

// The AA, which is tall where the number is 1.
fn aa_value(tall: u8) -> u16
    ensures { result ≡ aa_text (eqb tall 1) }
{
    if tall == 1 { 0x102B } else { 0x102C }
}

// The vowel of a weight.
pub(crate) fn vowel_text(weight: u8, tall: u8) -> Text
    ensures { result ≡ vowel_text (vowel_of_weight weight (eqb tall 1)) }
{
    let aa = aa_value(tall);
    match weight {
        1 => Text::of([aa]),
        2 => Text::of([MARK_I]),
        3 => Text::of([0x102E]),
        4 => Text::of([MARK_U]),
        5 => Text::of([0x1030]),
        6 => Text::of([MARK_E]),
        7 => Text::of([0x1032]),
        8 => Text::of([MARK_E, aa]),
        9 => Text::of([MARK_E, aa, KILLER]),
        10 => Text::of([MARK_AM]),
        11 => Text::of([MARK_I, MARK_U]),
        12 => Text::of([MARK_U, MARK_AM]),
        _ => Text::of([]),
    }
}

// The final of its letters' numbers and a link; a great sa is written with the next head.
pub(crate) fn final_text(letter: u8, second_final: u8, link: u8) -> Text
    ensures { result ≡ final_text (final_of_numbers letter second_final link) }
{
    match link {
        1 => plain_text(letter, second_final),
        2 => stacked_text(letter),
        _ => Text::of([]),
    }
}

// The letter of a final's number.
fn letter_value(number: u8) -> u16
    ensures { result ≡ letter_of_number number }
{
    0x0FFF + number as u16
}

// A plain letter, or two where the second's number is not 0.
fn plain_text(letter: u8, second_final: u8) -> Text
    ensures { result ≡ final_text (plain_of_numbers letter second_final) }
{
    let first = letter_value(letter);
    if second_final == 0 {
        Text::of([first, KILLER])
    } else {
        Text::of([first, KILLER, letter_value(second_final), KILLER])
    }
}

// The letter of a number, stacked.
fn stacked_text(letter: u8) -> Text
    ensures { result ≡ final_text (final_of_numbers letter 0 2) }
{
    let value = letter_value(letter);
    if letter == KINZI_LETTER {
        Text::of([value, KILLER, STACKER])
    } else {
        Text::of([value, STACKER])
    }
}

// The tone of a weight.
pub(crate) fn tone_text(weight: u8) -> Text
    ensures { result ≡ tone_text (tone_of_weight weight) }
{
    match weight {
        1 => Text::of([0x1037]),
        2 => Text::of([0x1038]),
        _ => Text::of([]),
    }
}
