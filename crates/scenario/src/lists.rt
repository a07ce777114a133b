// `read` and `bytes`, which take as many bytes as there are.
ghost use Rattle.std.specs.Prelude.{◌≡◌, ◌<◌, ℕ, Bool, true, false, drop};
ghost use Rattle.scenario.specs.Words.{words_of, word_at};
ghost use Rattle.scenario.specs.Statements.{is_byte_word, bytes_found, bytes_statement, read_statement, list_of};

use crate::grammar::Statement;
use crate::numbers::{ends, is_within, pair, value};
use crate::words::{same, word};

// The most bytes that a line holds.
const MOST: usize = 300;

// The largest time of `bytes`: 63 bits.
const LAST_TIME: u64 = u64::MAX / 2;

// How many words there are from a place on, if each is a byte to the caller's test, which takes a word's
// number, and there are at most 300.
fn bytes_in<F: Fn(usize) -> bool>(line: &[u8], from: usize, is_byte: F) -> Option<usize>
    requires near { from < 8 }
    requires callable { F.IsAlwaysCallable is_byte }
    ensures { (pairs : Bool) →
        ((k : ℕ) (r : Bool) → F.post is_byte k r → r ≡ is_byte_word pairs (word_at (words_of line.now) k)) →
        result ≡ bytes_found pairs (drop from (words_of line.now)) }
{
    for n in 0..=MOST {
        if ends(line, from + n) {
            return Some(n);
        }
        if !is_byte(from + n) {
            return None;
        }
    }
    None
}

// A time, and 1 to 300 bytes of two digits.
fn bytes_of(line: &[u8]) -> Statement
    ensures { result ≡ bytes_statement (words_of line.now) }
{
    if !is_within(line, 1, LAST_TIME) {
        return Statement::Wrong;
    }
    match bytes_in(
        line,
        2,
        |k|
            ensures { result ≡ is_byte_word true (word_at (words_of line.entry.now) k) }
        { pair(word(line, k)).is_some() },
    ) {
        Some(n) if 1 <= n => Statement::Bytes(value(line, 1, u64::MAX), n),
        _ => Statement::Wrong,
    }
}

// 0 to 300 bytes.
fn read_of(line: &[u8]) -> Statement
    ensures { result ≡ read_statement (words_of line.now) }
{
    match bytes_in(
        line,
        1,
        |k|
            ensures { result ≡ is_byte_word false (word_at (words_of line.entry.now) k) }
        { is_within(line, k, 255) },
    ) {
        Some(n) => Statement::Read(n),
        None => Statement::Wrong,
    }
}

// Two tests by `same`: a `match` on the two literals was tried, and its proof did not close.
//
// What a `read` or a `bytes` line says; no other line is a statement.
pub fn list_of(line: &[u8]) -> Statement
    ensures { result ≡ list_of (words_of line.now) }
{
    let first = word(line, 0);
    if same(first, b"read") {
        return read_of(line);
    }
    if same(first, b"bytes") {
        return bytes_of(line);
    }
    Statement::Wrong
}
