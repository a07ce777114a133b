// `encode`: the commands.
ghost use Rattle.std.specs.Prelude.{◌≡◌, ◌<◌, get_or};
ghost use Rattle.scenario.specs.Words.{words_of};
ghost use Rattle.scenario.specs.Statements.{rows_say, command_rows_of, encode_of};
ghost use Rattle.command.specs.declared.Command.TheVariants.{NoOperation};

use crate::forms::place;
use crate::grammar::Statement;
use crate::lists::list_of;
use crate::numbers::{byte, flag, short};
use command::Command;

// The commands of a line in the order of their forms; a, b and c are the numbers behind the name as
// bytes, cv the first as 16 bits and on the second as a flag.
fn command_at(line: &[u8], row: usize) -> Command
    requires { row < 23 }
    ensures { result ≡ get_or (rows_say (command_rows_of (words_of line.now))) row NoOperation }
{
    let cv = short(line, 2);
    let a = byte(line, 2);
    let b = byte(line, 3);
    let c = byte(line, 4);
    let on = flag(line, 3);
    let commands = [
        Command::NoOperation,
        Command::ActualSpeed(a),
        Command::WantedSpeed(a),
        Command::Load(a),
        Command::AddressLow(a),
        Command::AddressHigh(a),
        Command::FunctionsFrom0(a),
        Command::FunctionsFrom5(a),
        Command::FunctionsFrom13(a),
        Command::FunctionsFrom21(a),
        Command::Control(a),
        Command::ShortState(a, on),
        Command::LongLow(a, on),
        Command::LongHigh(a),
        Command::VerifyByte(cv, b),
        Command::WriteByte(cv, b),
        Command::VerifyBit(cv, b, c),
        Command::WriteBit(cv, b, c),
        Command::Call {
            module: a,
            forced: on,
            status: c,
        },
        Command::BankRead(a, b),
        Command::ReadCv(cv),
        Command::PositionHigh(a),
        Command::PositionLow(a),
    ];
    commands[row]
}

// What an `encode` line says, or a line of the kinds behind.
pub fn encode_of(line: &[u8]) -> Statement
    ensures { result ≡ encode_of (words_of line.now) }
{
    let Some(row) = place(
        line,
        b"encode noop,encode actual 255,encode wanted 255,encode load 255,encode addresslow 255,\
          encode addresshigh 255,encode functions0 255,encode functions5 255,encode functions13 255,\
          encode functions21 255,encode control 255,encode state 255 1,encode longlow 255 1,encode longhigh 255,\
          encode verify 65535 255,encode write 65535 255,encode verifybit 65535 255 255,\
          encode writebit 65535 255 255,encode call 255 1 255,encode bank 255 255,encode readcv 65535,\
          encode positionhigh 255,encode positionlow 255",
    ) else {
        // It fits none of the 23 forms: `read` and `bytes` come next.
        return list_of(line);
    };
    Statement::Encode(command_at(line, row))
}
