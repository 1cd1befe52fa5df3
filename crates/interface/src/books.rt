// The calls on a book.
ghost use Rattle.std.specs.Prelude.{◌≡◌};
ghost use Rattle.entries.specs.Entries.{entries};
ghost use Rattle.entries.specs.Outcome.{check_of};
ghost use Rattle.tidying.specs.Tidy.{TidyRight};
ghost use Rattle.ranking.specs.Rank.{rank_of};
ghost use Rattle.ranking.specs.Whole.{OrderRight};
ghost use Rattle.book_word.specs.WordAt.{WordRight};
ghost use Rattle.wordbook.specs.Calls.{AddPromise, PreviewPromise, RemovePromise};
ghost use Rattle.wordbook.specs.Prefix.{PrefixPromise};
ghost use Rattle.packing.specs.Packing.{pack, Packed};
ghost use Rattle.packing.specs.Answers.{outcome_numbers, preview_numbers, FindAnswers};

use packing::Pack;

// Whether the buffer is a book.
#[unsafe(no_mangle)]
pub extern "C" fn jogcairn_book_check(book: &[u8]) -> u64
    ensures { result ≡ pack (outcome_numbers (check_of (entries book.now))) }
{
    book_calls::check(book).pack()
}

// Puts a live record with the word just after the last record, and tells whether the book was tidied for it.
#[unsafe(no_mangle)]
pub extern "C" fn jogcairn_book_add(book: &mut [u8], word: &[u16], stock: u32) -> u64
    ensures { Packed (AddPromise word.now stock book.old book.new) outcome_numbers result }
{
    wordbook::add(book, word, stock).pack()
}

// What add would answer on a copy of the book, with where its record would start and whether it would tidy: the number of the add.
#[unsafe(no_mangle)]
pub extern "C" fn jogcairn_book_preview(book: &[u8], word: &[u16], stock: u32) -> u64
    ensures { Packed (PreviewPromise word.now stock book.entry.now book.exit.now) preview_numbers result }
{
    wordbook::preview(book, word, stock).pack()
}

// Marks the live record with the word as removed.
#[unsafe(no_mangle)]
pub extern "C" fn jogcairn_book_remove(book: &mut [u8], word: &[u16]) -> u64
    ensures { Packed (RemovePromise word.now book.old book.new) outcome_numbers result }
{
    wordbook::remove(book, word).pack()
}

// Moves the live records to the front and fills the rest with zeros.
#[unsafe(no_mangle)]
pub extern "C" fn jogcairn_book_tidy(book: &mut [u8]) -> u64
    ensures { Packed (TidyRight book.old book.new) outcome_numbers result }
{
    book_calls::tidy(book).pack()
}

// Stock number and start of the live record with the word.
#[unsafe(no_mangle)]
pub extern "C" fn jogcairn_book_find(book: &[u8], word: &[u16]) -> u64
    ensures { Packed (FindAnswers book.now word.now) outcome_numbers result }
{
    wordbook::find(book, word).pack()
}

// Writes the starts of the live records that begin with the query's syllables, in word order.
#[unsafe(no_mangle)]
pub extern "C" fn jogcairn_book_find_prefix(book: &[u8], query: &[u16], starts: &mut [u16]) -> u64
    ensures { Packed (PrefixPromise book.now query.now starts.old starts.new) outcome_numbers result }
{
    wordbook::find_prefix(book, query, starts).pack()
}

// Stock number and start of the live record with `rank` live records before it in word order.
#[unsafe(no_mangle)]
pub extern "C" fn jogcairn_book_rank(book: &[u8], rank: usize) -> u64
    ensures { result ≡ pack (outcome_numbers (rank_of (entries book.now) rank)) }
{
    book_calls::rank(book, rank).pack()
}

// Writes the starts of all live records, in word order.
#[unsafe(no_mangle)]
pub extern "C" fn jogcairn_book_order(book: &[u8], starts: &mut [u16]) -> u64
    ensures { Packed (OrderRight book.now starts.old starts.new) outcome_numbers result }
{
    book_calls::order(book, starts).pack()
}

// Writes the word of the record that starts at `start`, and tells its stock number, its length and whether it is live.
#[unsafe(no_mangle)]
pub extern "C" fn jogcairn_book_word(book: &[u8], start: usize, word: &mut [u16]) -> u64
    ensures { Packed (WordRight book.now start word.old word.new) outcome_numbers result }
{
    book_calls::word_at(book, start, word).pack()
}
