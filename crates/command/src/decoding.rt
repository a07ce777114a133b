// From a packet to what it means. Definitions: specs/Meaning.antt.
ghost use Rattle.std.specs.Prelude.{◌≡◌};
ghost use Rattle.command.specs.Meaning.{is_packet, load_of, functions_of, call_said, of_cv, bit_form, position_high_of, said_by, meaning_of};

use crate::{Command, first};
use line::{Packet, Receiver};

// As long as its first byte asks for, and 0 past its end.
fn is_packet(packet: Packet) -> bool
    ensures { result ≡ is_packet packet }
{
    let bytes = packet.bytes;
    packet.length == line::packet_length(bytes[0])
        && (packet.length == Receiver::LONG || bytes[2] == 0)
}

// Bit 7 set is no load.
fn load_of(second: u8) -> Option<Command>
    ensures { result ≡ load_of second }
{
    if second < 128 {
        Some(Command::Load(second))
    } else {
        None
    }
}

// F0 is bit 4 of the byte and bit 0 of the functions.
fn functions_of(second: u8) -> u8
    ensures { result ≡ functions_of second }
{
    bits::bit_at(second, 4) + 2 * bits::part_of(second, 0, 4)
}

// The module in bits 0 and 1, forced in bit 2, the status number in bits 3 and 4.
fn call_of(second: u8) -> Command
    ensures { result ≡ call_said second }
{
    let module = bits::part_of(second, 0, 2);
    let forced = bits::bit_at(second, 2) == 1;
    let status = bits::part_of(second, 3, 2);
    Command::Call {
        module,
        forced,
        status,
    }
}

// A CV packet with bit 7 of its second byte clear means nothing.
fn of_cv(marked: bool, command: Command) -> Option<Command>
    ensures { result ≡ of_cv marked command }
{
    if marked { Some(command) } else { None }
}

// The third byte is 111K DBBB: K is 1 for a write, D the value, B the place. Other top bits mean nothing.
fn bit_form(marked: bool, cv: u16, third: u8) -> Option<Command>
    ensures { result ≡ bit_form marked cv third }
{
    if bits::part_of(third, 5, 3) != 7 {
        return None;
    }
    let place = bits::part_of(third, 0, 3);
    let value = bits::bit_at(third, 3);
    if bits::bit_at(third, 4) == 0 {
        return of_cv(marked, Command::VerifyBit(cv, place, value));
    }
    of_cv(marked, Command::WriteBit(cv, place, value))
}

// Data over 15 mean nothing: the byte has three address bits and the extended mark.
fn position_high_of(second: u8) -> Option<Command>
    ensures { result ≡ position_high_of second }
{
    if second <= 15 {
        Some(Command::PositionHigh(second))
    } else {
        None
    }
}

// The tables, by the first byte.
#[tactic(auto, unfolding(crate::specs::Meaning::said_by, crate::specs::Meaning::cv_of))]
fn said_by(first: u8, second: u8, third: u8) -> Option<Command>
    ensures { result ≡ said_by first second third }
{
    // Bit 7 of the second byte is on or off, or the mark of a CV packet; below it stands a number.
    let bit_7 = bits::bit_at(second, 7) == 1;
    let number = bits::part_of(second, 0, 7);
    let cv = Command::FIRST_CV + u16::from(number);
    match first {
        first::NO_OPERATION => Some(Command::NoOperation),
        first::ACTUAL_SPEED => Some(Command::ActualSpeed(second)),
        first::WANTED_SPEED => Some(Command::WantedSpeed(second)),
        first::LOAD => load_of(second),
        first::ADDRESS_LOW => Some(Command::AddressLow(second)),
        first::ADDRESS_HIGH => Some(Command::AddressHigh(second)),
        first::FUNCTIONS_0 => Some(Command::FunctionsFrom0(functions_of(second))),
        first::FUNCTIONS_5 => Some(Command::FunctionsFrom5(second)),
        first::FUNCTIONS_13 => Some(Command::FunctionsFrom13(second)),
        first::FUNCTIONS_21 => Some(Command::FunctionsFrom21(second)),
        first::CONTROL => Some(Command::Control(bits::part_of(second, 0, 2))),
        first::SHORT_STATE => Some(Command::ShortState(number, bit_7)),
        first::LONG_LOW => Some(Command::LongLow(number, bit_7)),
        first::LONG_HIGH => Some(Command::LongHigh(second)),
        first::CALL => Some(call_of(second)),
        first::BANK_READ_1 => Some(Command::BankRead(1, second)),
        first::BANK_READ_2 => Some(Command::BankRead(2, second)),
        first::BANK_READ_3 => Some(Command::BankRead(3, second)),
        first::READ_CV => Some(Command::ReadCv(u16::from(second) + Command::FIRST_READ)),
        first::VERIFY_BYTE => of_cv(bit_7, Command::VerifyByte(cv, third)),
        first::WRITE_BYTE => of_cv(bit_7, Command::WriteByte(cv, third)),
        first::BIT => bit_form(bit_7, cv, third),
        first::POSITION_HIGH => position_high_of(second),
        first::POSITION_LOW => Some(Command::PositionLow(second)),
        _ => None,
    }
}

// What a packet means, for any packet: also one of no length, or of a length that its first byte has
// not, which means nothing.
pub fn decode(packet: Packet) -> Option<Command>
    ensures { result ≡ meaning_of packet }
{
    if !is_packet(packet) {
        return None;
    }
    let bytes = packet.bytes;
    said_by(bytes[0], bytes[1], bytes[2])
}
