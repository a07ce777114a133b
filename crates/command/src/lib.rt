// The commands of the line: what a packet means, and what packet says it.
//
// A module calls `decode`: any packet in, a command or nothing out. A host calls `host::encode`, whose
// two steps are here: `Command::has_room`, and `Command::packet`, which asks that there is room.
// An address and a long state are two commands each, made by `Command::address` and
// `Command::long_state`, so that nobody splits a number himself.
// Definitions: specs/Meaning.antt is the paper's tables, read from the packet; specs/Saying.antt is
// the way back; specs/Pairs.antt the pairs. Laws: proofs/Laws.antt shows that the two ways are one.
#![tactic(auto)]

mod decoding;
mod encoding;
mod first;
mod pairs;

pub use decoding::decode;
pub use encoding::state_byte;
pub use pairs::Halves;

// A command with its numbers. A field can hold numbers that its packet has no room for: refusal 8 is for them,
// and narrower fields would ask more of callers.
#[derive(Clone, Copy)]
pub enum Command {
    // No effect; but like every command it drops a half that is held.
    NoOperation,
    // A speed as it stands on the line, bit 7 forward.
    ActualSpeed(u8),
    WantedSpeed(u8),
    // 0 to 127.
    Load(u8),
    AddressLow(u8),
    AddressHigh(u8),
    // F0 to F4, F5 to F12, F13 to F20, F21 to F28: the lowest of them in bit 0.
    FunctionsFrom0(u8),
    FunctionsFrom5(u8),
    FunctionsFrom13(u8),
    FunctionsFrom21(u8),
    // Bit 0 is the buffer's. Bit 1: 0 puts F0 to F28 off, 1 leaves them.
    Control(u8),
    // A state's number, 0 to 127, and on or off. Number 0 is all of 1 to 127.
    ShortState(u8, bool),
    // The low seven bits of a long state's number, and on or off; then the number's high bits.
    LongLow(u8, bool),
    LongHigh(u8),
    // A CV, 897 to 1024, and a byte.
    VerifyByte(u16, u8),
    WriteByte(u16, u8),
    // A CV, 897 to 1024, a bit's place in it, 0 to 7, and the bit, 0 or 1.
    VerifyBit(u16, u8, u8),
    WriteBit(u16, u8, u8),
    // Module numbers and status numbers are 0 to 3; module 0 is nobody.
    Call {
        module: u8,
        forced: bool,
        status: u8,
    },
    // A module, 1 to 3, and a bank.
    BankRead(u8, u8),
    // A CV, 769 to 1024.
    ReadCv(u16),
    // Where the locomotive is, as a board says it: 0 to 15, three address bits and the extended mark;
    // then the low byte of the address.
    PositionHigh(u8),
    PositionLow(u8),
}

impl Command {
    // The CVs that can be verified and written, and the lowest that can be asked for.
    pub const FIRST_CV: u16 = 897;

    pub const LAST_CV: u16 = 1024;

    pub const FIRST_READ: u16 = 769;
    // The highest number of a long state.
    pub const LAST_STATE: u16 = 32767;
}
