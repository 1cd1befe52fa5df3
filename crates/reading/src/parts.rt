// The part of a word that a syllable is, by number.
ghost use Rattle.std.specs.Prelude.{◌≡◌, ◌<◌, ◌≤◌};
ghost use Rattle.formula.specs.Limits.{limit};
ghost use Rattle.refusals.specs.Outcome.{outcome_by, tells_if_there};
ghost use Rattle.reading.specs.Parts.{end_by, part_told, PartAnswers, PartRight};

use crate::read::pass;
use formula::Word;
use refusals::Refusal;

// Where a syllable's part begins in its word, and how many values it has.
#[derive(Clone, Copy)]
pub struct Part {
    pub place: usize,
    pub size: usize,
}

// Where the syllable `number` ends: where the next one begins, or at the word's end.
#[tactic(auto, using(letters::proofs::Picks::picks), unfolding(crate::specs::Parts::end_by))]
fn end_of(starts: &[u8; Word::LIMIT], count: usize, number: usize, end: usize) -> usize
    requires { (number < count) × (count ≤ limit) }
    ensures { result ≡ end_by starts.now count number end }
{
    let next = number + 1;
    if next < count {
        usize::from(starts[next])
    } else {
        end
    }
}

// The part of the syllable `number`, from 0, where there is one.
pub fn part_place(word: &[u16], number: usize) -> Result<Option<Part>, Refusal>
    ensures { PartAnswers word.now number (outcome_by (tells_if_there part_told) result) }
{
    let scan = pass(word)?;
    if scan.count <= number {
        return Ok(None);
    }
    let place = usize::from(scan.starts[number]);
    let end = end_of(&scan.starts, scan.count, number, word.len());
    let size = end - place;
    Ok(Some(Part { place, size }))
}

// The part of the syllable `number`, from 0; empty where the word is refused or has no such syllable.
pub fn part_at(word: &[u16], number: usize) -> &[u16]
    ensures { PartRight word.now number result.now }
{
    let Some(part) = part_place(word, number).unwrap_or(None) else {
        return &word[..0];
    };
    &word[part.place..part.place + part.size]
}
