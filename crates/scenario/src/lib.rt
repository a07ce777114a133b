// The scenarios of the program `replay`: what a line says.
//
// `statement` takes any bytes and asks nothing of its caller; `read_bytes` gives the bytes of a `read` line,
// `hex_byte` those of a `bytes` line. The words and their places are for the crate `faults`, which tells why
// a line is no statement. A line is held against tables of forms (forms.rt), each a text that reads as the
// statements do; a new row is a form in its table, and at the same place what it says. Definitions:
// specs/Words.antt (a line as words), Numbers.antt (the numbers), Forms.antt (when a line fits a form),
// Statements.antt (the grammar, a line for each row).
#![tactic(auto)]

mod bytes;
mod commands;
mod fields;
mod forms;
mod grammar;
mod lists;
mod numbers;
mod rows;
mod words;

pub use bytes::{hex_byte, read_bytes};
pub use grammar::{Buffer, Field, Statement};
pub use rows::statement;
pub use words::{Span, locate, part, same, uncommented, until, word};
