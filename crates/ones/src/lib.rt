// How many bits of a byte or of a word are 1, counted by the language's own operation (C-05). The
// definition, in specs/Ones.antt, counts numbers whose bit is 1, so that it serves a byte's bits, the
// states and the functions alike; its laws are in proofs/Laws.antt.
#![tactic(auto)]

ghost use Rattle.std.specs.Prelude.{◌≡◌};
ghost use Rattle.bits.specs.Bits.{bit_at};
ghost use Rattle.ones.specs.Ones.{ones_among};

// One for each width: a trait over both would be longer than these two.
pub fn of_byte(byte: u8) -> u32
    ensures { result ≡ ones_among (bit_at byte) 0 8 }
{
    u8::count_ones(byte)
}

pub fn of_word(word: u32) -> u32
    ensures { result ≡ ones_among (bit_at word) 0 32 }
{
    u32::count_ones(word)
}
