// The collation key of a word.
ghost use Rattle.collation.specs.Keyed.{KeyRight};

use crate::weigh::weigh;
use formula::Word;
use refusals::Refusal;

// The weights of a word, six bytes a syllable and zeros behind them, with the number of syllables.
#[derive(Clone, Copy)]
pub struct Key {
    pub count: usize,
    pub bytes: [u8; Word::KEY],
}

// The key of a word of any values and any length.
pub fn key_of(word: &[u16]) -> Result<Key, Refusal>
    ensures { KeyRight word.now result }
{
    let mut bytes = [0; Word::KEY];
    let count = weigh(word, &mut bytes)?;
    Ok(Key { count, bytes })
}
