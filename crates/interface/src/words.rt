// The calls on words.
ghost use Rattle.recogniser.specs.Answer.{Answers};
ghost use Rattle.reading.specs.Parts.{PartAnswers};
ghost use Rattle.normaliser.specs.Normal.{NormaliseRight};
ghost use Rattle.normaliser.specs.Form.{FormRight};
ghost use Rattle.normaliser.specs.Typed.{TypedAnswers};
ghost use Rattle.collation.specs.Comparison.{CompareAnswers};
ghost use Rattle.writing.specs.Write.{WriteRight};
ghost use Rattle.spelling.specs.Spell.{lists, SpellRight};
ghost use Rattle.packing.specs.Packing.{Packed};
ghost use Rattle.packing.specs.Answers.{outcome_numbers, pair_numbers};
ghost use Rattle.outputs.specs.Outputs.{RecordWritten, KeyWritten, DecodeWritten};

use packing::Pack;

// How many syllables a word has.
#[unsafe(no_mangle)]
pub extern "C" fn jogcairn_read(word: &[u16]) -> u64
    ensures { Packed (Answers word.now) outcome_numbers result }
{
    recogniser::walk::answer_of(word).pack()
}

// Writes the record of the syllable `number`, from 0.
#[unsafe(no_mangle)]
pub extern "C" fn jogcairn_record(word: &[u16], number: usize, bytes: &mut [u8]) -> u64
    ensures { Packed (RecordWritten word.now number bytes.old bytes.new) outcome_numbers result }
{
    outputs::put_record(word, number, bytes).pack()
}

// Place and length of the part of the syllable `number`, from 0.
#[unsafe(no_mangle)]
pub extern "C" fn jogcairn_part(word: &[u16], number: usize) -> u64
    ensures { Packed (PartAnswers word.now number) outcome_numbers result }
{
    reading::parts::part_place(word, number).pack()
}

// Writes a word's spelled syllables and where each begins.
#[unsafe(no_mangle)]
pub extern "C" fn jogcairn_spell(word: &[u16], values: &mut [u16], starts: &mut [u16]) -> u64
    ensures { Packed
        (SpellRight word.now (lists values.old starts.old) (lists values.new starts.new))
        outcome_numbers result }
{
    spelling::spell(word, values, starts).pack()
}

// Writes the word of records, eight bytes a syllable.
#[unsafe(no_mangle)]
pub extern "C" fn jogcairn_write(records: &[u8], word: &mut [u16]) -> u64
    ensures { Packed (WriteRight records.now word.old word.new) outcome_numbers result }
{
    writing::write(records, word).pack()
}

// Writes the stored form of a word.
#[unsafe(no_mangle)]
pub extern "C" fn jogcairn_normalise(word: &[u16], output: &mut [u16]) -> u64
    ensures { Packed (NormaliseRight word.now output.old output.new) outcome_numbers result }
{
    normaliser::normalise(word, output).pack()
}

// Writes the stored form of any word, whether or not it is a row of syllables.
#[unsafe(no_mangle)]
pub extern "C" fn jogcairn_stored_form(word: &[u16], output: &mut [u16]) -> u64
    ensures { Packed (FormRight word.now output.old output.new) outcome_numbers result }
{
    normaliser::form::stored_form(word, output).pack()
}

// Which value of the word stands at `place` of its stored form: its place in the word.
#[unsafe(no_mangle)]
pub extern "C" fn jogcairn_typed_place(word: &[u16], place: usize) -> u64
    ensures { Packed (TypedAnswers word.now place) outcome_numbers result }
{
    normaliser::typed::typed_place(word, place).pack()
}

// Writes the collation key of a word.
#[unsafe(no_mangle)]
pub extern "C" fn jogcairn_key(word: &[u16], key: &mut [u8]) -> u64
    ensures { Packed (KeyWritten word.now key.old key.new) outcome_numbers result }
{
    outputs::put_key(word, key).pack()
}

// How the first word stands to the second.
#[unsafe(no_mangle)]
pub extern "C" fn jogcairn_compare(first: &[u16], second: &[u16]) -> u64
    ensures { Packed (CompareAnswers first.now second.now) pair_numbers result }
{
    packing::pack_pair(collation::compare::compare(first, second))
}

// Writes the values of a line of UTF-8 bytes.
#[unsafe(no_mangle)]
pub extern "C" fn jogcairn_decode(line: &[u8], word: &mut [u16]) -> u64
    ensures { Packed (DecodeWritten line.now word.old word.new) outcome_numbers result }
{
    outputs::put_values(line, word).pack()
}
