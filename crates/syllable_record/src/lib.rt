// The tests on one syllable record.
#![tactic(auto, unfolding(letters::specs::Choice::pick, formula::specs::Syllable::carries_marks, formula::specs::Syllable::carries_final, crate::specs::Record::is_vowel_numbers, crate::specs::Record::is_final_numbers, crate::specs::Record::is_second_final_number, crate::specs::Record::is_tone_number, crate::specs::Record::link_admits, crate::specs::Record::is_record, crate::specs::Record::may_follow))]

ghost use Rattle.std.specs.Prelude.{◌≡◌, ◌+◌};
ghost use Rattle.letters.specs.Letters.{is_independent_vowel};
ghost use Rattle.letters.specs.Weights.{is_head};
ghost use Rattle.formula.specs.Syllable.{carries_marks, carries_final};
ghost use Rattle.syllable_record.specs.Record.{bytes_of, is_vowel_numbers, is_final_numbers, is_second_final_number, is_tone_number, link_admits, is_record, may_follow};

use formula::Word;

// A syllable's record: its bytes in their order. Each stands for a part of a syllable, and any bytes may be handed in.
#[derive(Clone, Copy)]
pub struct Record {
    pub head: u8,
    pub medial: u8,
    pub vowel: u8,
    pub tall: u8,
    pub letter: u8,
    pub second_letter: u8,
    // A number, not an enum: with a `match` on an enum of the links the tests alone took 8% longer.
    pub link: u8,
    pub tone: u8,
}

impl From<[u8; Word::RECORD]> for Record {
    ghost from_gives = { λ bytes made. bytes_of made ≡ bytes };

    fn from(bytes: [u8; Word::RECORD]) -> Self {
        let [head, medial, vowel, tall, letter, second_letter, link, tone] = bytes;
        Self {
            head,
            medial,
            vowel,
            tall,
            letter,
            second_letter,
            link,
            tone,
        }
    }
}

// The tests are comparisons put together by `&` and `|`, without branches: with `matches!` for the ranges the writer took 4% longer.
impl Record {
    // Whether the record is one, and may follow one with the link.
    pub fn may_follow(self, link: u8) -> bool
        ensures { result ≡ may_follow link (bytes_of self) }
    {
        admits(link, self.head) & self.is_record()
    }

    // Whether the bytes are those of a syllable.
    fn is_record(self) -> bool
        ensures { result ≡ is_record (bytes_of self) }
    {
        is_head(self.head)
            & (self.medial <= 11)
            & self.is_vowel()
            & self.is_final()
            & self.is_second_final()
            & self.is_tone()
            & (carries_marks(self.head) | ((self.medial == 0) & (self.vowel == 0)))
            & (carries_final(self.head) | ((self.link == 0) & (self.tone == 0)))
    }

    // Whether there is such a vowel; only those with AA are tall.
    fn is_vowel(self) -> bool
        ensures { result ≡ is_vowel_numbers self.vowel self.tall }
    {
        (self.vowel <= 12)
            & ((self.tall == 0)
                | ((self.tall == 1) & ((self.vowel == 1) | (self.vowel == 8) | (self.vowel == 9))))
    }

    // Whether there is such a final: none, a letter plain or stacked, or great sa.
    fn is_final(self) -> bool
        ensures { result ≡ is_final_numbers self.letter self.link }
    {
        ((self.link == 0) & (self.letter == 0))
            | ((1 <= self.link) & (self.link <= 2) & (1 <= self.letter) & (self.letter <= 33))
            | ((self.link == 3) & (self.letter == 31))
    }

    // Whether there is such a second final: none, or a letter where the first is plain.
    fn is_second_final(self) -> bool
        ensures { result ≡ is_second_final_number self.second_letter self.link }
    {
        if self.link == 1 {
            self.second_letter <= 33
        } else {
            self.second_letter == 0
        }
    }

    // Whether there is such a tone, and the link takes it.
    fn is_tone(self) -> bool
        ensures { result ≡ is_tone_number self.link self.tone }
    {
        (self.tone <= 2) & ((self.link <= 1) | (self.tone == 0))
    }
}

// Whether the byte is that of a head: one that carries a final, a digit, a stop or a sign.
fn is_head(head: u8) -> bool
    ensures { result ≡ is_head (0x1000 + head) }
{
    carries_final(head) | ((0x40 <= head) & (head <= 0x4F))
}

// Whether the head may have a medial group and a vowel.
fn carries_marks(head: u8) -> bool
    ensures { result ≡ carries_marks (0x1000 + head) }
{
    head <= 0x21
}

// Whether the head may have a final and a tone.
fn carries_final(head: u8) -> bool
    ensures { result ≡ carries_final (0x1000 + head) }
{
    carries_marks(head) | is_independent_vowel(head) | (head == 0x4E)
}

// Whether the byte is that of an independent vowel.
fn is_independent_vowel(head: u8) -> bool
    ensures { result ≡ is_independent_vowel (0x1000 + head) }
{
    ((0x23 <= head) & (head <= 0x27)) | ((0x29 <= head) & (head <= 0x2A))
}

// Whether a syllable with the head may follow one with the link.
fn admits(link: u8, head: u8) -> bool
    ensures { result ≡ link_admits link (0x1000 + head) }
{
    (link <= 1) | ((link == 2) & (head <= 0x20)) | ((link == 3) & (head == 0x1E))
}
