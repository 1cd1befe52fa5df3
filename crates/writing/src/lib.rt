// The writer: the word that a row of syllable records gives, eight bytes a syllable in word order.
#![tactic(auto)]

ghost use Rattle.refusals.specs.Outcome.{outcome_of};
ghost use Rattle.writing.specs.Write.{WriteRight};

use refusals::Refusal;

mod row; // row.rt: the passes over the records

// Writes the word of the records to the front of the output, and tells how many values that is; with refusal 6 or 5 nothing is written.
pub fn write(records: &[u8], output: &mut [u16]) -> Result<usize, Refusal>
    ensures { WriteRight records.now output.old output.new (outcome_of result) }
{
    let count = row::measure(records).ok_or(Refusal::NoSuchRow)?;
    if output.len() < count {
        return Err(Refusal::OutputTooShort(count));
    }
    Ok(row::put_row(records, output))
}
