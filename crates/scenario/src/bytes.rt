// The bytes of a `read` line and of a `bytes` line, by the places of their words. Behind `#` there
// are none.
ghost use Rattle.std.specs.Prelude.{◌≡◌, length};
ghost use Rattle.scenario.specs.Words.{uncommented, words_of, word_at};
ghost use Rattle.scenario.specs.Numbers.{value_of, pair_of};
ghost use Rattle.scenario.specs.Statements.{bytes_read};

use crate::numbers::{byte, pair_byte};
use crate::words::uncommented;

// The byte that the word number k of a `read` line says; 0 where it says none.
fn read_byte(line: &[u8], k: usize) -> u8
    ensures { result ≡ value_of 255 (word_at (words_of (uncommented line.now)) k) }
{
    byte(uncommented(line), k)
}

// Fills a list with the bytes of a `read` line.
pub fn read_bytes(line: &[u8], bytes: &mut [u8])
    ensures { bytes.new ≡ bytes_read line.now (length bytes.old) }
{
    for (k, byte) in bytes.iter_mut().enumerate() {
        *byte = read_byte(line, k + 1);
    }
}

// The byte that the word number k of a `bytes` line says by two digits; 0 where it says none.
pub fn hex_byte(line: &[u8], k: usize) -> u8
    ensures { result ≡ (pair_of (word_at (words_of (uncommented line.now)) k)).value }
{
    pair_byte(uncommented(line), k)
}
