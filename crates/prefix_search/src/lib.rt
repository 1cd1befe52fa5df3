// The live records of a book whose words begin with the syllables of a query, in word order.
#![tactic(auto)]

ghost use Rattle.refusals.specs.Outcome.{outcome_of};
ghost use Rattle.recogniser.specs.Answer.{Readable};
ghost use Rattle.book_keys.specs.Filing.{row_of};
ghost use Rattle.book_fitting.specs.Fitting.{fits_key};
ghost use Rattle.prefix_search.specs.Prefix.{PrefixRight, ListsPassing};

use book_check::open::open_book;
use formula::Word;
use keying::fill::fill;
use refusals::Refusal;
use sorting::records::sort_records;

// Puts the starts of the live records that begin with the weights of a key, in word order, at the front of `starts`.
fn find_key(book: &[u8], prefix: &[u8], starts: &mut [u16]) -> Result<usize, Refusal>
    ensures { ListsPassing book.now (fits_key prefix.now) starts.old starts.new (outcome_of result) }
{
    let opening = open_book(book)?;
    sort_records(book, opening.free, prefix, starts)
}

// Puts the starts of the live records that begin with the syllables of a readable word, in word order, at the front of `starts`.
pub fn find_prefix(book: &[u8], word: &[u16], starts: &mut [u16]) -> Result<usize, Refusal>
    requires { Readable word.now }
    ensures { PrefixRight book.now (row_of word.now) starts.old starts.new (outcome_of result) }
{
    let mut key = [0; Word::KEY];
    let syllables = fill(word, &mut key)?;
    let used = Word::WEIGHTS * syllables;
    find_key(book, &key[..used], starts)
}
