// The word type with its limits, and how far a word is read. What a syllable and a row of syllables are is said in specs/.
#![tactic(auto)]

ghost use Rattle.std.specs.Prelude.{◌≡◌, []};
ghost use Rattle.formula.specs.Held.{word_of};
ghost use Rattle.formula.specs.Packed.{unread};

// A word by value: the first `count` of `values`; the others are zero.
#[derive(Clone, Copy)]
pub struct Word {
    pub values: [u16; Word::LIMIT],
    pub count: usize,
}

impl Word {
    // The most code values of a word.
    pub const LIMIT: usize = 64;

    // The most bytes of a line, three for each value.
    pub const LINE_LIMIT: usize = 3 * Word::LIMIT;

    // The most syllables of a label.
    pub const LABEL_LIMIT: usize = 10;

    // The bytes of a syllable's record.
    pub const RECORD: usize = 8;

    // The place of the link in a record.
    pub const LINK: usize = 6;

    // The weights of a syllable, a byte of a key each.
    pub const WEIGHTS: usize = 6;

    // The bytes of a key: the weights of as many syllables as a word has values at most.
    pub const KEY: usize = Word::WEIGHTS * Word::LIMIT;

    // No value yet.
    pub fn empty() -> Self
        ensures { result ≡ word_of [] }
    {
        let values = [0; Self::LIMIT];
        Self { values, count: 0 }
    }

    // The reading state in which no value of the word is read yet.
    pub fn unread() -> Window
        ensures { result ≡ unread }
    {
        Window {
            count: 0,
            last: 0,
            joined: 0,
        }
    }
}

// How far a word is read: the number of its syllables so far; the last of them, packed in one number; and the one before it, with the last head as
// its final and the link left out.
#[derive(Clone, Copy)]
pub struct Window {
    pub count: usize,
    pub last: u64,
    pub joined: u64,
}
