// The word book: the calls on a book in a lent buffer that take a word, for every buffer and every word.
#![tactic(auto)]

ghost use Rattle.refusals.specs.Outcome.{outcome_by, outcome_of};
ghost use Rattle.storage.specs.Stored.{stored_form};
ghost use Rattle.entries.specs.Entries.{entries};
ghost use Rattle.entries.specs.Outcome.{find_of};
ghost use Rattle.lookup.specs.Look.{found_told};
ghost use Rattle.planning.specs.Plan.{added_told};
ghost use Rattle.planning.specs.Preview.{preview_outcome};
ghost use Rattle.wordbook.specs.Calls.{CallAnswers, AddPromise, PreviewPromise, RemovePromise};
ghost use Rattle.wordbook.specs.Prefix.{PrefixPromise};

use formula::Word;
use lookup::Found;
use planning::Added;
use refusals::Refusal;

mod enter; // enter.rt: the word that is handed in with a book

use crate::enter::enter;

// The live record with the word.
pub fn find(book: &[u8], word: &[u16]) -> Result<Found, Refusal>
    ensures { CallAnswers word.now (find_of (entries book.now) (stored_form word.now)) (outcome_by found_told result) }
{
    let mut values = [0; Word::LIMIT];
    let count = enter(word, &mut values)?;
    planning::find(book, &values[..count])
}

// Puts a live record with the word just after the last record, and tidies the book first where it does not fit otherwise.
pub fn add(book: &mut [u8], word: &[u16], stock: u32) -> Result<Added, Refusal>
    ensures { AddPromise word.now stock book.old book.new (outcome_by added_told result) }
{
    let mut values = [0; Word::LIMIT];
    let count = enter(word, &mut values)?;
    book_change::change::add(book, &values[..count], stock)
}

// What add would answer on a copy of the book: where its record would start, and whether it would tidy, or why it would refuse.
#[tactic(auto, using(crate::proofs::Stored::answered_by_form))]
pub fn preview(book: &[u8], word: &[u16], stock: u32) -> Result<Added, Refusal>
    ensures { PreviewPromise word.now stock book.entry.now book.exit.now (preview_outcome result) }
{
    let mut values = [0; Word::LIMIT];
    let count = enter(word, &mut values)?;
    planning::preview(book, &values[..count])
}

// Marks the live record with the word as removed, and gives its start.
pub fn remove(book: &mut [u8], word: &[u16]) -> Result<usize, Refusal>
    ensures { RemovePromise word.now book.old book.new (outcome_of result) }
{
    let mut values = [0; Word::LIMIT];
    let count = enter(word, &mut values)?;
    book_change::change::remove(book, &values[..count])
}

// Puts the starts of the live records that begin with the query's syllables, in word order, at the front of `starts`, and tells how many there are.
pub fn find_prefix(book: &[u8], query: &[u16], starts: &mut [u16]) -> Result<usize, Refusal>
    ensures { PrefixPromise book.now query.now starts.old starts.new (outcome_of result) }
{
    let mut values = [0; Word::LIMIT];
    let count = enter(query, &mut values)?;
    prefix_search::find_prefix(book, &values[..count], starts)
}
