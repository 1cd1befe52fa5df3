// The record of a syllable by number.
ghost use Rattle.std.specs.Prelude.{◌≡◌};
ghost use Rattle.reading.specs.Records.{medial_weight_by, bytes_by, RecordRight};

use crate::read::read;
use formula::Word;
use refusals::Refusal;
use syllables::parts;

// The weight of a set of medials; a syllable has no other set than a group's.
fn medial_weight(set: u8) -> u8
    ensures { result ≡ medial_weight_by set }
{
    letters::weight::medial_weight(set).unwrap_or(0)
}

// The record of a packed syllable.
#[tactic(auto, unfolding(crate::specs::Records::bytes_by))]
pub fn bytes_of(packed: u64) -> [u8; Word::RECORD]
    ensures { result ≡ bytes_by packed }
{
    [
        parts::head(packed),
        medial_weight(parts::medials(packed)),
        parts::vowel(packed),
        parts::tall(packed),
        parts::letter(packed),
        parts::second_letter(packed),
        parts::link(packed),
        parts::tone(packed),
    ]
}

// The record of the syllable `number`, from 0, where there is one.
#[tactic(auto, using(std::proofs::lemmas::Grind::common_steps, crate::proofs::Recorded::record_found, crate::proofs::Recorded::record_missing))]
pub fn record_at(word: &[u16], number: usize) -> Result<Option<[u8; Word::RECORD]>, Refusal>
    ensures { RecordRight word.now number result }
{
    let reading = read(word)?;
    let Some(packed) = reading.row().get(number) else {
        return Ok(None);
    };
    Ok(Some(bytes_of(*packed)))
}
