// A record, a key and a decoded line, written to lent output.
#![tactic(auto)]

ghost use Rattle.refusals.specs.Outcome.{accepts, outcome_of, outcome_by, tells_if_there};
ghost use Rattle.outputs.specs.Outputs.{RecordWritten, KeyWritten, DecodeWritten};

use collation::weigh::weigh;
use formula::Word;
use lines::decode;
use memory::copies::put_all;
use normaliser::put_out;
use reading::records::record_at;
use refusals::Refusal;

// Writes the record of the syllable `number`, from 0, to the front of the output, and tells its size; nothing where there is no such syllable.
pub fn put_record(word: &[u16], number: usize, output: &mut [u8]) -> Result<Option<usize>, Refusal>
    ensures { RecordWritten word.now number output.old output.new (outcome_by (tells_if_there accepts) result) }
{
    let Some(bytes) = record_at(word, number)? else {
        return Ok(None);
    };
    if output.len() < Word::RECORD {
        return Err(Refusal::OutputTooShort(Word::RECORD));
    }
    output[..Word::RECORD].copy_from_slice(&bytes);
    Ok(Some(Word::RECORD))
}

// Writes the key of a word to the front of the output.
#[tactic(auto, using(crate::proofs::Keying::key_stays, crate::proofs::Keying::key_short, crate::proofs::Keying::key_written))]
pub fn put_key(word: &[u16], output: &mut [u8]) -> Result<usize, Refusal>
    ensures { KeyWritten word.now output.old output.new (outcome_of result) }
{
    let mut bytes = [0; Word::KEY];
    let count = weigh(word, &mut bytes)?;
    if output.len() < Word::KEY {
        return Err(Refusal::OutputTooShort(Word::KEY));
    }
    put_all(&bytes, output, 0);
    Ok(count)
}

// Writes the values of a line to the front of the output.
pub fn put_values(line: &[u8], output: &mut [u16]) -> Result<usize, Refusal>
    ensures { DecodeWritten line.now output.old output.new (outcome_of result) }
{
    let word = decode(line)?;
    put_out(&word.values[..word.count], output)
}
