// Forms of statements. A form is written as a statement is, with the largest number in the place of
// each number: `cell 255 39 255`.
ghost use Rattle.std.specs.Prelude.{◌≡◌};
ghost use Rattle.scenario.specs.Words.{words_of, word_at};
ghost use Rattle.scenario.specs.Forms.{fits_word, fits, forms_of, form_found};

use crate::numbers::{ends, is_within, number_of};
use crate::words::{count_words, word};

// Whether the word number k of a line is as the form asks: a number asks for a number that is at most
// as large, any other word for itself.
fn fits_word(line: &[u8], form: &[u8], k: usize) -> bool
    ensures { result ≡ fits_word (word_at (words_of form.now) k) (word_at (words_of line.now) k) }
{
    match number_of(word(form, k)) {
        Some(limit) => is_within(line, k, limit),
        None => word(line, k) == word(form, k),
    }
}

// Whether a line has as many words as a form, each as the form asks.
fn fits(line: &[u8], form: &[u8]) -> bool
    ensures { result ≡ fits (words_of form.now) (words_of line.now) }
{
    let n = count_words(form);
    (0..n).all(|k| fits_word(line, form, k)) && ends(line, n)
}

// The number of the first form of a table that a line fits, from 0 on. A table is a text with commas
// between its forms.
pub fn place(line: &[u8], table: &[u8]) -> Option<usize>
    ensures { result ≡ form_found (forms_of table.now) (words_of line.now) }
{
    table
        .split(|byte| *byte == b',')
        .filter(|form| !form.is_empty())
        .position(|form| fits(line, form))
}
