// What the program writes gathers in a buffer, which is written when it is full, before the program
// reads on, and at the end.
ghost use Rattle.std.specs.Prelude.{◌≡◌, Some, is_some, not};

use std::fmt;
use std::fmt::Write;
use std::rt::Stdout;

const SIZE: usize = 65536;

#[derive(Drop)]
pub struct Output {
    to: Stdout,
    bytes: [u8; SIZE],
    // How many bytes stand in the buffer; none do, to the end, once a write has failed.
    used: Option<usize>,
}

impl Output {
    pub fn new(to: Stdout) -> Output
        ensures { result.used ≡ Some 0 }
    {
        Output {
            to,
            bytes: [0; SIZE],
            used: Some(0),
        }
    }

    // Whether a write has failed.
    pub fn is_lost(&self) -> bool
        ensures { is_some self.now.used ≡ not result }
    {
        self.used.is_none()
    }

    // Writes out what stands in the buffer. It gives false where that fails or has failed before.
    pub fn flush(&mut self) -> bool
        ensures { result ≡ is_some self.new.used }
    {
        match self.used {
            Some(used) => {
                let written = self.to.write_all(&self.bytes[..used.min(SIZE)]).is_ok();
                self.used = if written { Some(0) } else { None };
                written
            }
            None => false,
        }
    }

    fn put_byte(&mut self, byte: u8) {
        match &mut self.used {
            Some(used) if *used < SIZE => {
                self.bytes[*used] = byte;
                *used += 1;
            }
            Some(_) => {
                if self.flush() {
                    self.bytes[0] = byte;
                    self.used = Some(1);
                }
            }
            None => {}
        }
    }

    pub fn put(&mut self, text: &str) {
        for byte in text.as_bytes() {
            self.put_byte(*byte);
        }
    }

    // A word and numbers, each behind a space.
    pub fn put_words(&mut self, word: &str, numbers: &[u64]) {
        self.put(word);
        for number in numbers {
            let _ = write!(self, " {number}");
        }
    }

    // The same as a line.
    pub fn put_row(&mut self, word: &str, numbers: &[u64]) {
        self.put_words(word, numbers);
        self.put("\n");
    }

    // Bytes, each as two digits behind a space, and the line's end. No `write!`, which took eight times as many steps.
    pub fn put_bytes(&mut self, bytes: &[u8]) {
        for byte in bytes {
            let [high, low] = text::hex(*byte);
            self.put_byte(b' ');
            self.put_byte(high);
            self.put_byte(low);
        }
        self.put("\n");
    }
}

// A write that failed is told by `flush` and `is_lost`, and not here.
impl fmt::Write for Output {
    fn write_str(&mut self, text: &str) -> fmt::Result {
        self.put(text);
        Ok(())
    }
}
