// The messages: a line each, on standard error.
use crate::found::{Fault, fault_of, is_numeral};
use scenario::{uncommented, word};
use std::fmt::Display;
use std::rt::Stderr;

// How each statement is written that begins with a word of its own.
const FORMS: [&str; 19] = [
    "cut",
    "post H D H D, each 0 to 255",
    "status N V, each 0 to 255",
    "wait 0 or wait 1",
    "restart",
    "size BANK N, each 0 to 255",
    "cell BANK OFFSET V, OFFSET 0 to 39, the others 0 to 255",
    "show",
    "set FIELD VALUE, in the range of the field",
    "length WHICH N: store 10300, sheet 300, states 4200, room 200 or fixed 60 at most",
    "uneven",
    "encode COMMAND .., each number in its range",
    "read BYTE .., up to 300, each 0 to 255",
    "bytes TIME HEX .., TIME below 2^63, 1 to 300 bytes of two hexadecimal digits",
    "counts",
    "check",
    "states PLACE V, PLACE 0 to 4095, V 0 to 255",
    "fixed OFFSET V, OFFSET 0 to 39, V 0 to 255",
    "view BANK, 0 to 255",
];

// What cannot be said on standard error cannot be said.
fn say<D: Display + Drop>(to: Stderr, piece: D) {
    let _ = to.print(piece);
}

fn begin(to: Stderr, number: u64) {
    say(to, format_args!("replay: line {number}: "));
}

fn say_quoted(to: Stderr, bytes: &[u8]) {
    say(to, "'");
    let _ = to.write_all(bytes);
    say(to, "'");
}

// How the statement is written that the first word of a line names.
fn expected(said: &[u8]) -> &'static str {
    let first = word(said, 0);
    for form in FORMS {
        if word(form.as_bytes(), 0) == first {
            return form;
        }
    }
    if is_numeral(first) {
        "TIME LEVEL, TIME below 2^64, LEVEL 0 to 255"
    } else {
        "a statement of docs/REPLAY.md"
    }
}

fn end_expecting(to: Stderr, said: &[u8]) {
    say(to, "; expected: ");
    say(to, expected(said));
    say(to, "\n");
}

fn say_byte(to: Stderr, byte: u8) {
    match byte {
        b'\t' => say(to, "a tab"),
        b'\r' => say(to, "a carriage return"),
        _ => say(to, format_args!("a byte that is no text, {byte:02X}")),
    }
}

fn no_text(to: Stderr, said: &[u8], place: usize) {
    if let Some(byte) = said.get(place) {
        say_byte(to, *byte);
        say(to, " at place ");
        say(to, place as u64 + 1);
    }
    say(to, "; expected: text, and spaces between words\n");
}

fn too_large(to: Stderr, said: &[u8], k: usize) {
    say(to, "a number too large: ");
    say_quoted(to, word(said, k));
    end_expecting(to, said);
}

fn wrong(to: Stderr, said: &[u8]) {
    say(to, "not a statement: ");
    say_quoted(to, said);
    end_expecting(to, said);
}

pub fn not_a_statement(to: Stderr, number: u64, line: &[u8]) {
    let said = uncommented(line);
    begin(to, number);
    match fault_of(said) {
        Fault::NoText(place) => no_text(to, said, place),
        Fault::TooLarge(k) => too_large(to, said, k),
        Fault::NotAStatement => wrong(to, said),
    }
}

pub fn too_long(to: Stderr, number: u64) {
    begin(to, number);
    say(
        to,
        "too long; expected: at most 1000 bytes before the line feed\n",
    );
}

// A `size` or `cell` stands behind an edge.
pub fn after_an_edge(to: Stderr, number: u64, line: &[u8]) {
    begin(to, number);
    say(to, "after an edge: ");
    say_quoted(to, uncommented(line));
    say(to, "; expected: size and cell before the first edge\n");
}

// What went wrong with the input and the output.
pub fn troubles(to: Stderr, unread: bool, written: bool) {
    if unread {
        say(to, "replay: standard input could not be read\n");
    }
    if !written {
        say(to, "replay: standard output could not be written\n");
    }
}
