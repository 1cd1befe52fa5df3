// A line of UTF-8 bytes as code values: the word that it holds, or why it is refused.
#![tactic(auto)]

ghost use Rattle.std.specs.Prelude.{◌≡◌};
ghost use Rattle.lines.specs.Line.{is_three, DecodeRight};
ghost use Rattle.lines.specs.Three.{value_in};

use formula::Word;
use refusals::Refusal;

// The word of a line without its 0A, or the refusal 1 or 7.
pub fn decode(line: &[u8]) -> Result<Word, Refusal>
    ensures { DecodeRight line.now result }
{
    if Word::LINE_LIMIT < line.len() {
        return Err(Refusal::TooLong);
    }
    let mut values = [0; Word::LIMIT];
    for (number, bytes) in line.chunks(3).enumerate() {
        values[number] = value_in(bytes).ok_or(Refusal::FaultyLine(3 * number))?;
    }
    Ok(Word {
        values,
        count: line.len() / 3,
    })
}

// The value of a whole three.
#[tactic(auto, using(crate::proofs::Threes::three_bounds, crate::proofs::Threes::value_read), unfolding(crate::specs::Three::three_of, letters::specs::Choice::pick))]
fn value_in(bytes: &[u8]) -> Option<u16>
    ensures { result ≡ value_in bytes.now }
{
    match *bytes {
        [first, second, third] if is_three(first, second, third) => {
            Some(0x1000 + u16::from(second - 0x80) * 0x40 + u16::from(third - 0x80))
        }
        _ => None,
    }
}

// E1, then 80 or 81, then 80 to BF.
#[tactic(auto, unfolding(crate::specs::Line::is_three))]
fn is_three(first: u8, second: u8, third: u8) -> bool
    ensures { result ≡ is_three first second third }
{
    matches!((first, second, third), (0xE1, 0x80..=0x81, 0x80..=0xBF))
}
