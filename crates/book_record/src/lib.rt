// A live record with a word that is in storage order, written at a place of a buffer.
#![tactic(auto)]

ghost use Rattle.std.specs.Prelude.{◌≡◌, map, ◌+◌, ◌≤◌, ◌<◌, length};
ghost use Rattle.std.proofs.Math.Seq.{paste};
ghost use Rattle.formula.specs.Limits.{limit};
ghost use Rattle.entries.specs.Limits.{book_limit, head_size};
ghost use Rattle.entries.specs.Book.{byte_of, Within};
ghost use Rattle.entries.specs.Change.{Storable, with_record};
ghost use Rattle.book_record.specs.Head.{with_head};

use book_frame::HEAD;

// A part of a stock number as a byte.
fn stock_byte(part: u32) -> u8
    requires { part < 256 }
    ensures { result ≡ part }
{
    part as u8
}

// A value as a byte of a record.
fn value_byte(value: u16) -> u8
    requires { (0x1000 ≤ value) × (value ≤ 0x104F) }
    ensures { result ≡ byte_of value }
{
    (value - 0x1000) as u8
}

// Writes the seven bytes of a live record that stand before its word.
fn put_head(book: &mut [u8], at: usize, count: usize, stock: u32)
    requires { (length book.old ≤ book_limit) × (at + head_size ≤ length book.old) × (count ≤ limit) }
    ensures { book.new ≡ with_head book.old at count stock }
{
    let live = b"MW";
    book[at] = live[0];
    book[at + 1] = live[1];
    book[at + 2] = count as u8;
    book[at + 3] = stock_byte(stock % 256);
    book[at + 4] = stock_byte((stock / 256) % 256);
    book[at + 5] = stock_byte((stock / 65536) % 256);
    book[at + 6] = stock_byte(stock / 16777216);
}

// Writes the bytes of a word.
fn put_word(book: &mut [u8], from: usize, word: &[u16])
    requires { (from + length word.now ≤ length book.old) × Storable word.now }
    ensures { book.new ≡ paste book.old from (map byte_of word.now) (length word.now) }
{
    for (next, &value) in word.iter().enumerate() {
        book[from + next] = value_byte(value);
    }
}

// Writes a live record with the word at a place.
pub fn put_record(book: &mut [u8], start: usize, word: &[u16], stock: u32)
    requires { Within book.old start (head_size + length word.now) × Storable word.now }
    ensures { book.new ≡ with_record book.old start word.now stock }
{
    put_head(book, start, word.len(), stock);
    put_word(book, start + HEAD, word);
}
