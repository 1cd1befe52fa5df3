// The syllables of a word that is read.
ghost use Rattle.std.specs.Prelude.{◌≡◌, ◌≤◌, take};
ghost use Rattle.formula.specs.Limits.{limit};

use formula::Word;

// A word as read. `syllables` has its syllables first, each packed in one number, and zeros behind them.
#[derive(Clone, Copy)]
pub struct Reading {
    pub count: usize,
    pub syllables: [u64; Word::LIMIT],
    ghost within: { count ≤ limit },
}

impl Reading {
    // The syllables of the row, and no zeros.
    pub fn row(&self) -> &[u64]
        ensures { result.now ≡ take self.now.count self.now.syllables }
    {
        &self.syllables[..self.count]
    }
}
