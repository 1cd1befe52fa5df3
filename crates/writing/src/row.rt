// The passes over the records of a row: one that tests and counts, and one that writes.
ghost use Rattle.std.specs.Prelude.{◌≡◌, length};
ghost use Rattle.writing.specs.Size.{size_of};
ghost use Rattle.writing.specs.Put.{RowFits, RowPut};

use formula::Word;
use syllable_record::Record;
use syllable_text::part::{part_size, put_part};

// How many values the records are written with, if they are those of a row and the values are few enough.
#[tactic(auto, using(crate::proofs::Measuring::measured_uneven))]
pub(crate) fn measure(records: &[u8]) -> Option<usize>
    ensures { result ≡ size_of records.now }
{
    let (whole, rest) = records.as_chunks::<{ Word::RECORD }>();
    if !rest.is_empty() {
        return None;
    }
    let mut link = 0;
    let mut count = 0;
    for next in whole {
        if !Record::from(*next).may_follow(link) {
            return None;
        }
        count += part_size(*next);
        if Word::LIMIT < count {
            return None;
        }
        link = next[Word::LINK];
    }
    if 1 < link {
        return None;
    }
    Some(count)
}

// Writes the word of records that were measured to the front of an output that is long enough, and gives its length.
pub(crate) fn put_row(records: &[u8], output: &mut [u16]) -> usize
    requires { RowFits records.now (length output.old) }
    ensures { RowPut records.now output.old output.new result }
{
    let (whole, _) = records.as_chunks::<{ Word::RECORD }>();
    let mut link = 0;
    let mut count = 0;
    for next in whole {
        count = put_part(output, count, link, *next);
        link = next[Word::LINK];
    }
    count
}
