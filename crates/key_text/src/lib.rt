// Numbers, keys, values and single bytes as text, written into a lent list at a place. Each function answers the place behind what it wrote.
#![tactic(auto)]

ghost use Rattle.std.specs.Prelude.{suc, ℕ, List, ◌+◌, ◌*◌, ◌≤◌, ◌<◌, ◌≡◌, [], ◌∷◌, length};
ghost use Rattle.formula.specs.Limits.{limit};
ghost use Rattle.key_text.specs.Text.{digit_of, decimal_of, hexadecimal_of, hexadecimals_of, key_text, value_text, values_text};
ghost use Rattle.key_text.specs.Text.{decimal_limit, syllable_text_size, key_text_limit, value_text_size};
ghost use Rattle.key_text.specs.Elements.{joined, text_at, weights_text, weights_length, value_length};
ghost use Rattle.memory.specs.Put.{Put};

use formula::Word;

// The most digits of a number in decimal.
pub const DECIMAL_LIMIT: usize = 20;

// The most bytes of a key's text: for each syllable two digits a weight and a hyphen.
pub const KEY_TEXT_LIMIT: usize = (2 * Word::WEIGHTS + 1) * Word::LIMIT;

// One byte.
pub fn put(out: &mut [u8], at: usize, byte: u8) -> usize
    requires { at < length out.old }
    ensures { Put out.old at (byte ∷ []) out.new result }
{
    out[at] = byte;
    at + 1
}

// Bytes as they are, one behind the other.
pub fn put_text(out: &mut [u8], at: usize, text: &[u8]) -> usize
    requires { at + length text.now ≤ length out.old }
    ensures { Put out.old at text.now out.new result }
{
    out[at..at + text.len()].copy_from_slice(text);
    at + text.len()
}

// The byte of a digit below 16, in upper case.
#[tactic(auto, unfolding(crate::specs::Text::digit_of, letters::specs::Choice::pick))]
fn digit(value: u8) -> u8
    requires { value < 16 }
    ensures { result ≡ digit_of value }
{
    if value < 10 {
        b'0' + value
    } else {
        b'A' + (value - 10)
    }
}

// A number in decimal, without leading zeros.
pub fn put_decimal(out: &mut [u8], at: usize, number: u64) -> usize
    requires { at + decimal_limit ≤ length out.old }
    ensures { Put out.old at (decimal_of number) out.new result }
{
    if number < 10 {
        return put(out, at, digit(number as u8));
    }
    let next = put_decimal(out, at, number / 10);
    put(out, next, digit((number % 10) as u8))
}

// A byte as two hexadecimal digits.
#[tactic(auto, using(memory::proofs::Putting::put_after))]
fn put_hexadecimal(out: &mut [u8], at: usize, byte: u8) -> usize
    requires { at + 2 ≤ length out.old }
    ensures { Put out.old at (hexadecimal_of byte) out.new result }
{
    let next = put(out, at, digit(byte / 16));
    put(out, next, digit(byte % 16))
}

// Bytes in hexadecimal, one behind the other. It stands apart in the compiled program, where it is a loop and no row of stores for each kind of element.
#[inline(never)]
fn put_bytes(out: &mut [u8], at: usize, bytes: &[u8]) -> usize
    requires { at + 2 * length bytes.now ≤ length out.old }
    ensures { Put out.old at (hexadecimals_of (length bytes.now) bytes.now 0) out.new result }
{
    let mut next = at;
    for byte in bytes {
        next = put_hexadecimal(out, next, *byte);
    }
    next
}

// What stands between hyphens; its text has one length for the whole type.
trait Element {
    ghost text: { Self → List ℕ };

    ghost size: { ℕ };

    ghost sized: { (element : Self) → length (text element) ≡ size };

    fn put(&self, out: &mut [u8], at: usize) -> usize
        requires { at + size ≤ length out.old }
        ensures { Put out.old at (text self.now) out.new result };
}

// A value, in four hexadecimal digits.
impl Element for u16 {
    ghost text = { value_text };

    ghost size = { value_text_size };

    ghost sized = { value_length };

    #[tactic(auto, unfolding(crate::specs::Text::value_text))]
    fn put(&self, out: &mut [u8], at: usize) -> usize {
        put_bytes(out, at, &self.to_be_bytes())
    }
}

// The weights of a syllable of a key, two hexadecimal digits each.
impl Element for [u8; Word::WEIGHTS] {
    ghost text = { weights_text };

    ghost size = { syllable_text_size };

    ghost sized = { weights_length };

    #[tactic(auto, unfolding(crate::specs::Elements::weights_text))]
    fn put(&self, out: &mut [u8], at: usize) -> usize {
        put_bytes(out, at, self)
    }
}

// Elements with these bytes between them, and one hyphen for none.
fn put_elements<T: Element>(out: &mut [u8], at: usize, elements: &[T], between: &[u8]) -> usize
    requires { (at + (T.size + length between.now) * length elements.now ≤ length out.old) × (at < length out.old) }
    ensures { Put out.old at (joined (text_at T.text elements.now) between.now (length elements.now)) out.new result }
{
    if elements.is_empty() {
        return put(out, at, b'-');
    }
    let mut next = at;
    for (number, element) in elements.iter().enumerate() {
        next = element.put(out, next);
        if number + 1 < elements.len() {
            next = put_text(out, next, between);
        }
    }
    next
}

// A key of `count` syllables, with hyphens between them.
#[tactic(auto, using(crate::proofs::Elements::key_elements, crate::proofs::Hyphens::joined_hyphens))]
pub fn put_key(out: &mut [u8], at: usize, count: usize, key: &[u8; Word::KEY]) -> usize
    requires { (at + key_text_limit ≤ length out.old) × (count ≤ limit) }
    ensures { Put out.old at (key_text count key.now) out.new result }
{
    let (syllables, _) = key.as_chunks::<{ Word::WEIGHTS }>();
    put_elements(out, at, &syllables[..count], b"-")
}

// Values with hyphens between them.
#[tactic(auto, using(crate::proofs::Elements::values_elements, crate::proofs::Hyphens::joined_hyphens))]
pub fn put_values(out: &mut [u8], at: usize, values: &[u16]) -> usize
    requires { (at + suc value_text_size * length values.now ≤ length out.old) × (at < length out.old) }
    ensures { Put out.old at (values_text values.now) out.new result }
{
    put_elements(out, at, values, b"-")
}
