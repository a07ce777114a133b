// Bits of a byte. Bit 0 is the lowest, and a bit's value is 0 or 1.
//
// The definitions, in specs/Bits.antt, speak of any part of any number; their laws are in
// proofs/Parts.antt and serve every width. Also here, in proofs/: what follows from a test
// (Tests.antt), for the crates above.
#![tactic(auto)]

ghost use Rattle.std.specs.Prelude.{◌≡◌, ◌^◌, ◌<◌};
ghost use Rattle.bits.specs.Bits.{part_of, bit_at, with_bit};

// What the bit at a place counts: 1, 2, 4, .. 128. A place is a number, and each function asks that it is below
// 8: a type for it would ask more of every caller. `drive` has the same for 32 bits, in a line.
pub fn weight(place: u8) -> u8
    requires { place < 8 }
    ensures { result ≡ 2 ^ place }
{
    1 << place
}

// The part of a byte that begins at a place and is so many bits wide.
pub fn part_of(byte: u8, at: u8, width: u8) -> u8
    requires at_bound { at < 8 }
    requires width_bound { width < 8 }
    ensures { result ≡ part_of byte at width }
{
    byte / weight(at) % weight(width)
}

// The bit at a place of a byte.
pub fn bit_at(byte: u8, place: u8) -> u8
    requires { place < 8 }
    ensures { result ≡ bit_at byte place }
{
    byte / weight(place) % 2
}

// The byte with another value in the bit at a place, and every other bit as it was.
pub fn with_bit(byte: u8, place: u8, value: u8) -> u8
    requires place_bound { place < 8 }
    requires value_bound { value < 2 }
    ensures { result ≡ with_bit byte place value }
{
    let one = weight(place);
    byte - bit_at(byte, place) * one + value * one
}
