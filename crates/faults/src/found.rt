// What is wrong with a line that is no statement.
use scenario::{Statement, locate};

#[derive(Clone, Copy)]
pub enum Fault {
    // A byte at this place is no text.
    NoText(usize),
    // The word of this number is a number that is too large for its place.
    TooLarge(usize),
    NotAStatement,
}

// A line has no more bytes, and no more words.
const LONGEST: usize = 1000;

// Whether a word is written as a number, of whatever size.
pub fn is_numeral(word: &[u8]) -> bool {
    match word {
        [b'0', b'x', digits @ ..] => !digits.is_empty()
            && digits.iter().all(|digit| digit.is_ascii_hexdigit()),
        _ => !word.is_empty() && word.iter().all(|digit| digit.is_ascii_digit()),
    }
}

// Puts 0 in the place of a word.
fn put_zero(word: &mut [u8]) {
    word.fill(b' ');
    if let Some(first) = word.first_mut() {
        *first = b'0';
    }
}

// Puts 0 in the place of a number; then whether the line is a statement.
fn is_one_with_zero(line: &mut [u8], start: usize, end: usize) -> bool {
    let m = end.min(line.len());
    let n = start.min(m);
    if !is_numeral(&line[n..m]) {
        return false;
    }
    put_zero(&mut line[n..m]);
    !matches!(scenario::statement(line), Statement::Wrong)
}

// The number of the word that is too large a number: the line would be a statement with 0 there and in the
// place of each number before it. It leaves these zeros.
fn large_word(line: &mut [u8]) -> Option<usize> {
    for k in 0..LONGEST {
        let found = locate(line, k, b' ');
        if found.start == found.end {
            return None;
        }
        if is_one_with_zero(line, found.start, found.end) {
            return Some(k);
        }
    }
    None
}

// What is wrong with a line that has no comment. Text goes from the space to the tilde.
pub fn fault_of(line: &[u8]) -> Fault {
    let no_text = line.iter().position(|byte| *byte < b' ' || b'~' < *byte);
    if let Some(place) = no_text {
        return Fault::NoText(place);
    }
    let n = line.len().min(LONGEST);
    let mut tried = [0u8; LONGEST];
    tried[..n].copy_from_slice(&line[..n]);
    match large_word(&mut tried[..n]) {
        Some(k) => Fault::TooLarge(k),
        None => Fault::NotAStatement,
    }
}
