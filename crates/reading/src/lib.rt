// The lines of standard input: it comes in blocks, and a line is put together from the parts of it that
// they hold. A line ends with a line feed, or with a carriage return and a line feed. For the program
// `replay`; it is proved to end and to do nothing undefined, and docs/LOOSER.md says why its functions
// promise no more.
#![tactic(auto)]

ghost use Rattle.std.specs.Prelude.{◌+◌, ◌<◌, ◌≤◌, length};

use panel::Output;
use std::io::{Read, Result};
use std::rt::Stdin;

// What has come of a line.
#[derive(Clone, Copy, PartialEq, Eq)]
pub enum Line {
    // Not all of it yet.
    Part,
    Whole,
    // More bytes than a line may have.
    TooLong,
    // Nothing, and nothing will: the input has ended, and every line of it was whole before.
    NoMore,
}

// What is known of the input.
#[derive(Clone, Copy, PartialEq, Eq)]
pub enum Input {
    Open,
    Ended,
    // It could not be read, and counts as ended.
    Unreadable,
}

#[derive(Clone, Copy)]
pub struct Reading {
    // Block and line are buffers of the program, of fixed sizes; here are the places in them. The block's
    // bytes from the first of these places to the second are not taken yet.
    pub at: usize,
    pub end: usize,
    // The number of the line, and how many of its bytes have come.
    pub number: u64,
    pub length: usize,
    pub line: Line,
    pub input: Input,
}

impl Reading {
    pub fn new() -> Reading {
        Reading {
            at: 0,
            end: 0,
            number: 1,
            length: 0,
            line: Line::Part,
            input: Input::Open,
        }
    }

    // So many bytes were read, or the read failed: then the input is over.
    fn after_read(mut self, got: Result<usize>) -> Reading {
        self.at = 0;
        self.end = 0;
        match got {
            Ok(0) => self.input = Input::Ended,
            Ok(n) => self.end = n,
            Err(_) => self.input = Input::Unreadable,
        }
        self
    }

    // Behind a whole line comes the next one.
    fn on_a_line(mut self) -> Reading {
        if self.line != Line::Part {
            self.line = Line::Part;
            self.length = 0;
            self.number = self.number.wrapping_add(1);
        }
        self
    }

    // The input is over: a last line may lack its line feed.
    fn over(mut self) -> Reading {
        self.line = if self.length == 0 {
            Line::NoMore
        } else {
            Line::Whole
        };
        self
    }

    fn overlong(mut self) -> Reading {
        self.line = Line::TooLong;
        self
    }

    // A carriage return just before the line feed is no part of the line.
    fn without_return(mut self, line: &[u8; 1000]) -> Reading {
        if let [front @ .., b'\r'] = &line[..self.length.min(1000)] {
            self.length = front.len();
        }
        self
    }

    // A part of the line has come, up to a place of the block; with a line feed there, the line is whole.
    fn with_part(mut self, length: usize, end: usize) -> Reading {
        self.length = length;
        self.at = end;
        if end < self.end {
            self.at = end + 1;
            self.line = Line::Whole;
        }
        self
    }
}

// Where the block is used up: writes out what is written by now, and reads the next.
pub fn read_on(
    reading: Reading,
    stdin: &mut Stdin,
    input: &mut [u8; 65536],
    out: &mut Output,
) -> Reading {
    if reading.at < reading.end || reading.input != Input::Open || !out.flush() {
        return reading;
    }
    reading.after_read(stdin.read(input))
}

// The place of the first line feed from a place on, or the end at n.
fn line_end(input: &[u8], from: usize, n: usize) -> usize
    requires from_le_n { from ≤ n }
    requires n_in_bounds { n ≤ length input.now }
    ensures { (from ≤ result) × (result ≤ n) }
{
    let found = input[from..n].iter().position(|byte| *byte == b'\n');
    match found {
        Some(k) => from + k,
        None => n,
    }
}

// What the block holds of the line comes behind what has come of it.
fn take_from(reading: Reading, input: &[u8], line: &mut [u8; 1000]) -> Reading {
    let n = reading.end.min(input.len());
    let from = reading.at.min(n);
    let end = line_end(input, from, n);
    let at = reading.length.min(1000);
    let part = &input[from..end];
    if 1000 - at < part.len() {
        return reading.overlong();
    }
    let length = at + part.len();
    line[at..length].copy_from_slice(part);
    let joined = reading.with_part(length, end);
    if joined.line == Line::Whole {
        return joined.without_return(line);
    }
    joined
}

// Takes the next part of a line, or the rest of it.
pub fn take_part(reading: Reading, input: &[u8; 65536], line: &mut [u8; 1000]) -> Reading {
    let begun = reading.on_a_line();
    if begun.input != Input::Open {
        return begun.over();
    }
    take_from(begun, input, line)
}
