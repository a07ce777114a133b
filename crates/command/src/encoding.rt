// From a command to the packet that says it. Definitions: specs/Saying.antt.
ghost use Rattle.std.specs.Prelude.{◌≡◌, true, ltb, ◌<◌, ◌≤◌};
ghost use Rattle.line.specs.Line.{packet_of3};
ghost use Rattle.command.specs.Saying.{between, room_for_byte, room_for_bit, room_for_call, room_for_bank, has_room, functions_byte};
ghost use Rattle.command.specs.Saying.{state_byte, call_byte, cv_byte, bit_byte, bank_first, packet_saying};

use crate::{Command, first};
use line::Packet;

// Whether a number has room among so many.
fn below(number: u8, room: u16) -> bool
    ensures { result ≡ ltb number room }
{
    u16::from(number) < room
}

// Whether a number lies between two others, or is one of them.
fn between(low: u16, number: u16, high: u16) -> bool
    ensures { result ≡ between low number high }
{
    low <= number && number <= high
}

fn room_for_byte(cv: u16, value: u8) -> bool
    ensures { result ≡ room_for_byte cv value }
{
    between(Command::FIRST_CV, cv, Command::LAST_CV) && below(value, 256)
}

fn room_for_bit(cv: u16, place: u8, value: u8) -> bool
    ensures { result ≡ room_for_bit cv place value }
{
    between(Command::FIRST_CV, cv, Command::LAST_CV) && (place < 8 && value < 2)
}

fn room_for_call(called: u8, status: u8) -> bool
    ensures { result ≡ room_for_call called status }
{
    called < 4 && status < 4
}

fn room_for_bank(asked: u8, bank: u8) -> bool
    ensures { result ≡ room_for_bank asked bank }
{
    between(1, u16::from(asked), 3) && below(bank, 256)
}

// F0 goes to bit 4, F1 to F4 to bits 0 to 3.
fn functions_byte(set: u8) -> u8
    ensures { result ≡ functions_byte set }
{
    16 * bits::bit_at(set, 0) + bits::part_of(set, 1, 4)
}

// The byte of a state: its number in bits 0 to 6, on or off in bit 7. It asks for a number below 128 by itself,
// as all do that take one: a command can hold any.
pub fn state_byte(number: u8, on: bool) -> u8
    requires { number < 128 }
    ensures { result ≡ state_byte number on }
{
    128 * u8::from(on) + number
}

// The module in bits 0 and 1, forced in bit 2, the status number in bits 3 and 4.
fn call_byte(called: u8, forced: bool, status: u8) -> u8
    requires called_bound { called < 4 }
    requires status_bound { status < 4 }
    ensures { result ≡ call_byte called forced status }
{
    8 * status + 4 * u8::from(forced) + called
}

// 128+V for CV 897+V.
fn cv_byte(cv: u16) -> u8
    requires { (897 ≤ cv) × (cv ≤ 1024) }
    ensures { result ≡ cv_byte cv }
{
    (128 + (cv - Command::FIRST_CV)) as u8
}

// The third byte is 111K DBBB: K is 1 for a write, D the value, B the place.
fn bit_packet(cv: u16, writes: u8, value: u8, place: u8) -> Packet
    requires le_cv { (897 ≤ cv) × (cv ≤ 1024) }
    requires place_bound { (place < 8) × (value < 2) }
    requires writes_bound { writes < 2 }
    ensures { result ≡ packet_of3 0x7B (cv_byte cv) (bit_byte writes value place) }
{
    Packet::long(
        first::BIT,
        cv_byte(cv),
        224 + 16 * writes + 8 * value + place,
    )
}

fn bank_first(asked: u8) -> u8
    ensures { result ≡ bank_first asked }
{
    match asked {
        1 => first::BANK_READ_1,
        2 => first::BANK_READ_2,
        _ => first::BANK_READ_3,
    }
}

impl Command {
    // Whether the command's packet has room for each of its numbers: refusal 8 is for one that has not.
    #[tactic(auto, unfolding(crate::specs::Saying::has_room))]
    pub fn has_room(self) -> bool
        ensures { result ≡ has_room self }
    {
        match self {
            Command::NoOperation => true,
            Command::ActualSpeed(speed) => below(speed, 256),
            Command::WantedSpeed(speed) => below(speed, 256),
            Command::Load(load) => below(load, 128),
            Command::AddressLow(half) => below(half, 256),
            Command::AddressHigh(half) => below(half, 256),
            Command::FunctionsFrom0(set) => below(set, 32),
            Command::FunctionsFrom5(set) => below(set, 256),
            Command::FunctionsFrom13(set) => below(set, 256),
            Command::FunctionsFrom21(set) => below(set, 256),
            Command::Control(control) => below(control, 4),
            Command::ShortState(n, _) => below(n, 128),
            Command::LongLow(low, _) => below(low, 128),
            Command::LongHigh(high) => below(high, 256),
            Command::VerifyByte(cv, value) => room_for_byte(cv, value),
            Command::WriteByte(cv, value) => room_for_byte(cv, value),
            Command::VerifyBit(cv, place, value) => room_for_bit(cv, place, value),
            Command::WriteBit(cv, place, value) => room_for_bit(cv, place, value),
            Command::Call {
                module,
                forced: _,
                status,
            } => room_for_call(module, status),
            Command::BankRead(module, bank) => room_for_bank(module, bank),
            Command::ReadCv(cv) => between(Command::FIRST_READ, cv, Command::LAST_CV),
            Command::PositionHigh(high) => below(high, 16),
            Command::PositionLow(low) => below(low, 256),
        }
    }

    // The packet that says the command, unread bits 0. The caller has asked for room.
    #[tactic(auto, unfolding(crate::specs::Saying::packet_saying))]
    pub fn packet(self) -> Packet
        requires { has_room self ≡ true }
        ensures { result ≡ packet_saying self }
    {
        match self {
            Command::NoOperation => Packet::short(first::NO_OPERATION, 0),
            Command::ActualSpeed(speed) => Packet::short(first::ACTUAL_SPEED, speed),
            Command::WantedSpeed(speed) => Packet::short(first::WANTED_SPEED, speed),
            Command::Load(load) => Packet::short(first::LOAD, load),
            Command::AddressLow(half) => Packet::short(first::ADDRESS_LOW, half),
            Command::AddressHigh(half) => Packet::short(first::ADDRESS_HIGH, half),
            Command::FunctionsFrom0(set) => Packet::short(first::FUNCTIONS_0, functions_byte(set)),
            Command::FunctionsFrom5(set) => Packet::short(first::FUNCTIONS_5, set),
            Command::FunctionsFrom13(set) => Packet::short(first::FUNCTIONS_13, set),
            Command::FunctionsFrom21(set) => Packet::short(first::FUNCTIONS_21, set),
            Command::Control(control) => Packet::short(first::CONTROL, control),
            Command::ShortState(n, on) => Packet::short(first::SHORT_STATE, state_byte(n, on)),
            Command::LongLow(low, on) => Packet::short(first::LONG_LOW, state_byte(low, on)),
            Command::LongHigh(high) => Packet::short(first::LONG_HIGH, high),
            Command::VerifyByte(cv, value) => Packet::long(first::VERIFY_BYTE, cv_byte(cv), value),
            Command::WriteByte(cv, value) => Packet::long(first::WRITE_BYTE, cv_byte(cv), value),
            Command::VerifyBit(cv, place, value) => bit_packet(cv, 0, value, place),
            Command::WriteBit(cv, place, value) => bit_packet(cv, 1, value, place),
            Command::Call {
                module,
                forced,
                status,
            } => Packet::short(first::CALL, call_byte(module, forced, status)),
            Command::BankRead(module, bank) => Packet::short(bank_first(module), bank),
            Command::ReadCv(cv) => Packet::short(first::READ_CV, (cv - Command::FIRST_READ) as u8),
            Command::PositionHigh(high) => Packet::short(first::POSITION_HIGH, high),
            Command::PositionLow(low) => Packet::short(first::POSITION_LOW, low),
        }
    }
}
