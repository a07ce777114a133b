// The numbers of a line.
ghost use Rattle.std.specs.Prelude.{◌≡◌, true, false, ◌<◌, eqb, drop};
ghost use Rattle.scenario.specs.Words.{words_of, word_at};
ghost use Rattle.scenario.specs.Numbers.{digit_found, numbered, numeral_of, word_number, pair_of, within, none, value_of};

use crate::words::word;

// The most digits that a number has.
const MOST_DIGITS: usize = 20;

// What a digit counts, if it is one.
fn digit(byte: u8) -> Option<u8>
    ensures { result ≡ digit_found byte }
{
    match byte {
        b'0'..=b'9' => Some(byte - b'0'),
        b'A'..=b'F' => Some(byte - b'A' + 10),
        b'a'..=b'f' => Some(byte - b'a' + 10),
        _ => None,
    }
}

// The number that digits of a base say. By hand, since the library's `from_str_radix` takes a sign and any
// number of digits, which the grammar does not.
fn numeral(digits: &[u8], base: u64) -> Option<u64>
    requires lt_base { 1 < base }
    requires base_bound { base < 17 }
    ensures { numbered result ≡ numeral_of base digits.now }
{
    if digits.is_empty() || MOST_DIGITS < digits.len() {
        return None;
    }
    let mut value: u64 = 0;
    for byte in digits {
        let d = u64::from(digit(*byte)?);
        if base <= d {
            return None;
        }
        value = value.checked_mul(base)?.checked_add(d)?;
    }
    Some(value)
}

// The number that a word says.
pub fn number_of(word: &[u8]) -> Option<u64>
    ensures { numbered result ≡ word_number word.now }
{
    match word.strip_prefix(b"0x") {
        Some(digits) => numeral(digits, 16),
        None => numeral(word, 10),
    }
}

// The byte that a word of two hexadecimal digits says.
pub fn pair(word: &[u8]) -> Option<u64>
    ensures { numbered result ≡ pair_of word.now }
{
    if word.len() != 2 {
        return None;
    }
    numeral(word, 16)
}

// Whether the word number k is a number and at most a limit. A line and a word's number, here and below: with
// the word itself, each call would have to find it.
pub fn is_within(line: &[u8], k: usize, limit: u64) -> bool
    ensures { result ≡ within limit (word_at (words_of line.now) k) }
{
    number_of(word(line, k)).is_some_and(|number| number <= limit)
}

// Whether there is no word number k.
pub fn ends(line: &[u8], k: usize) -> bool
    ensures { result ≡ none (drop k (words_of line.now)) }
{
    word(line, k).is_empty()
}

// The number that the word number k says, if it is one and at most a limit; else 0.
pub fn value(line: &[u8], k: usize, limit: u64) -> u64
    ensures { result ≡ value_of limit (word_at (words_of line.now) k) }
{
    match number_of(word(line, k)) {
        Some(number) if number <= limit => number,
        _ => 0,
    }
}

// The byte that the word number k says: 0 to 255 as a number of the grammar, else 0. The limit is
// the type's, here and below: nothing is cut off. Each is one conversion; one function over both types
// would be longer.
pub fn byte(line: &[u8], k: usize) -> u8
    ensures { result ≡ value_of 255 (word_at (words_of line.now) k) }
{
    value(line, k, 255) as u8
}

// The number that the word number k says, if it has at most 16 bits; else 0.
pub fn short(line: &[u8], k: usize) -> u16
    ensures { result ≡ value_of 65535 (word_at (words_of line.now) k) }
{
    value(line, k, 65535) as u16
}

// Whether the word number k says 1.
pub fn flag(line: &[u8], k: usize) -> bool
    ensures { result ≡ eqb (value_of 1 (word_at (words_of line.now) k)) 1 }
{
    value(line, k, 1) == 1
}

// The byte that the word number k says in two hexadecimal digits; 0 if it does not.
pub fn pair_byte(line: &[u8], k: usize) -> u8
    ensures { result ≡ (pair_of (word_at (words_of line.now) k)).value }
{
    pair(word(line, k)).unwrap_or(0) as u8
}
