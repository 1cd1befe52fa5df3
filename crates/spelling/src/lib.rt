// Words spelled out: each syllable by itself, with its final as a letter and 103A.
#![tactic(auto)]

ghost use Rattle.std.specs.Prelude.{◌≡◌, ◌≤◌, length};
ghost use Rattle.formula.specs.Limits.{limit};
ghost use Rattle.refusals.specs.Outcome.{outcome_by};
ghost use Rattle.reading.specs.Records.{bytes_by};
ghost use Rattle.spelling.specs.Plain.{plain_bytes, spelled_by};
ghost use Rattle.spelling.specs.Put.{SpelledSize, SyllableRoom, SyllablePut, Room, SyllablesPut};
ghost use Rattle.spelling.specs.Spell.{lists, spelled_told, SpellRight};

use formula::Word;
use reading::read::read;
use reading::records::bytes_of;
use refusals::Refusal;
use syllable_text::part::{part_size, put_part};

// How many values a word is spelled with, and how many syllables, each of which begins at a place of its own.
#[derive(Clone, Copy)]
pub struct Spelled {
    pub values: usize,
    pub syllables: usize,
}

// The record of a packed syllable whose final is made plain, where there is one.
fn plain_record(packed: u64) -> [u8; Word::RECORD]
    ensures { result ≡ plain_bytes (bytes_by packed) }
{
    let mut bytes = bytes_of(packed);
    bytes[Word::LINK] = bytes[Word::LINK].min(1);
    bytes
}

// How many values a packed syllable is spelled with.
fn spelled_size(packed: u64) -> usize
    ensures is { result ≡ length (spelled_by packed) }
    ensures small { result ≤ 13 }
{
    part_size(plain_record(packed))
}

// How many values the syllables are spelled with.
fn measure(syllables: &[u64]) -> usize
    requires { length syllables.now ≤ limit }
    ensures { SpelledSize syllables.now result }
{
    syllables.iter().map(|packed| spelled_size(*packed)).sum()
}

// Writes a syllable, spelled, from a place of one list on, and the place as its start to the other; gives the place behind the syllable.
fn put_syllable(
    packed: u64,
    number: usize,
    at: usize,
    values: &mut [u16],
    starts: &mut [u16],
) -> usize
    requires { SyllableRoom packed number at values.old starts.old }
    ensures { SyllablePut packed number at (lists values.old starts.old) (lists values.new starts.new) result }
{
    // A cast: `try_from` is no plainer, since it would want an arm for a place past 190, which no spelled word has.
    starts[number] = at as u16;
    put_part(values, at, 0, plain_record(packed))
}

// Writes the syllables, spelled, to one list, and the place where each begins to the other.
fn put(syllables: &[u64], values: &mut [u16], starts: &mut [u16])
    requires { Room syllables.now values.old starts.old }
    ensures { SyllablesPut syllables.now (lists values.old starts.old) (lists values.new starts.new) }
{
    let mut at = 0;
    for (number, packed) in syllables.iter().enumerate() {
        at = put_syllable(*packed, number, at, values, starts);
    }
}

// Writes a word's spelled syllables to the front of `values`, and the place there where each begins to the front of `starts`;
// tells how many of each were written.
pub fn spell(word: &[u16], values: &mut [u16], starts: &mut [u16]) -> Result<Spelled, Refusal>
    ensures { SpellRight word.now (lists values.old starts.old) (lists values.new starts.new) (outcome_by spelled_told result) }
{
    let reading = read(word)?;
    let syllables = reading.row();
    let count = syllables.len();
    let size = measure(syllables);
    if values.len() < size {
        return Err(Refusal::OutputTooShort(size));
    }
    if starts.len() < count {
        return Err(Refusal::OutputTooShort(count));
    }
    put(syllables, values, starts);
    Ok(Spelled {
        values: size,
        syllables: count,
    })
}
