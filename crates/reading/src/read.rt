// The reading of a word: how many syllables it has and which, or why it is refused.
ghost use Rattle.reading.specs.Reading.{PassRight, ReadRight};

use crate::row::Reading;
use formula::Word;
use recogniser::walk::answer_at;
use refusals::Refusal;
use scanning::{Scan, scan_word};

// The pass over a word of any values and any length that is a row of syllables. It is made part of each caller in the compiled library, so that what it
// scanned is not copied on the way.
#[inline(always)]
pub(crate) fn pass(word: &[u16]) -> Result<Scan, Refusal>
    ensures { PassRight word.now result }
{
    if Word::LIMIT < word.len() {
        return Err(Refusal::TooLong);
    }
    let scan = scan_word(word);
    answer_at(word, scan.at, scan.state, scan.count)?;
    Ok(scan)
}

// Reads a word of any values and any length.
pub fn read(word: &[u16]) -> Result<Reading, Refusal>
    ensures { ReadRight word.now result }
{
    let scan = pass(word)?;
    let syllables = scan.syllables;
    Ok(Reading {
        count: scan.count,
        syllables,
    })
}
