// Where the locomotive is, as another board says it on the line: the position last heard (C-12). Two
// bytes say it; the commands that bring them stand in the crate `command`. A record keeps it as an
// option: none, while none was heard since the restart. Definitions: specs/Position.antt.
#![tactic(auto)]

ghost use Rattle.std.specs.Prelude.{◌≡◌};
ghost use Rattle.position.specs.Position.{position_of, position_possible};

// An accessory's address, A10 to A0, and whether it is one of the extended ones.
#[derive(Clone, Copy, PartialEq, Eq)]
pub struct Position {
    pub address: u16,
    pub extended: bool,
}

impl Position {
    // Eleven bits; and of the high byte four, the extended mark among them.
    pub const MAX_ADDRESS: u16 = 2047;

    pub const MAX_HIGH: u8 = 15;

    // The position that both bytes say: A10 to A8 in bits 2 to 0 of the high one, the extended mark in
    // its bit 3, A7 to A0 in the low one.
    pub fn heard(high: u8, low: u8) -> Position
        ensures { result ≡ position_of high low }
    {
        Position {
            address: 256 * u16::from(bits::part_of(high, 0, 3)) + u16::from(low),
            extended: bits::bit_at(high, 3) == 1,
        }
    }

    // Whether what a record keeps is none, or one that two bytes can have said: part of refusal 12.
    pub fn possible(kept: Option<Position>) -> bool
        ensures { result ≡ position_possible kept }
    {
        match kept {
            None => true,
            Some(position) => position.address <= Self::MAX_ADDRESS,
        }
    }
}
