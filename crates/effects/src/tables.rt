// The tables of document 01, and the two rows of C-12: what each command does.
ghost use Rattle.std.specs.Prelude.{◌≡◌, []};
ghost use Rattle.command.specs.Room.{RoomOfNumbers};
ghost use Rattle.store.specs.Sheet.{sheets_of};
ghost use Rattle.cells.specs.Settings.{written_as};
ghost use Rattle.board.specs.Board.{board_of, board_refusal};
ghost use Rattle.reactions.specs.Reactions.{told_of, reaction_of, write_effect, left, leaves};
ghost use Rattle.effects.specs.Effects.{effect_of, packet_effect};

use board::{Half, Module};
use cells::{Settings, Sheets};
use command::Command;
use line::Packet;
use reactions::{
    Reaction, address_high, bank_read, called, cv_read, held, long_high, nothing, position_low,
    short_state, told, verified, written,
};

// A write that gives settings was done; one that gives none left them as they were.
fn after_write(kept: Module, write: Option<Settings>) -> Reaction
    ensures { told_of result ≡ reaction_of
        (write_effect (board_of kept [] []) (record { written = written_as kept.settings write; store = [] })) }
{
    written(kept, write.is_some(), write.unwrap_or(kept.settings))
}

// A command of the tables: what it does, and what it answers. States, store and room are lent one by one, here
// and in all that calls this: in one struct of loans, two of them could not be proved to go into one call.
#[tactic(auto, unfolding(crate::specs::Effects::effect_of))]
fn obey(
    kept: Module,
    command: Command,
    states: &mut [u8],
    store: &mut [u8],
    sheets: Sheets<'_, '_>,
    room: &mut [u8],
) -> Reaction
    requires room_value { board_refusal (board_of kept states.old store.old) (sheets_of sheets.sizes.now sheets.fixed.now) room.old ≡ 0 }
    requires room_of_numbers { RoomOfNumbers command }
    ensures { left (told_of result) states.new store.new room.new ≡ leaves
        (effect_of (board_of kept states.old store.old) (sheets_of sheets.entry.sizes.now sheets.entry.fixed.now) command)
        room.old }
{
    let drive = kept.drive;
    let settings = kept.settings;
    match command {
        Command::NoOperation => nothing(kept),
        Command::ActualSpeed(speed) => told(kept, drive.with_actual(speed)),
        Command::WantedSpeed(speed) => told(kept, drive.with_wanted(speed)),
        Command::Load(load) => told(kept, drive.with_load(load)),
        Command::AddressLow(low) => held(kept, Half::AddressHalf, low),
        Command::AddressHigh(high) => address_high(kept, high),
        Command::FunctionsFrom0(on) => told(kept, drive.with_functions(0, 5, on)),
        Command::FunctionsFrom5(on) => told(kept, drive.with_functions(5, 8, on)),
        Command::FunctionsFrom13(on) => told(kept, drive.with_functions(13, 8, on)),
        Command::FunctionsFrom21(on) => told(kept, drive.with_functions(21, 8, on)),
        Command::Control(control) => told(kept, drive.with_control(control)),
        Command::ShortState(number, on) => short_state(kept, number, on, states),
        Command::LongLow(low, on) => held(kept, Half::StateHalf, command::state_byte(low, on)),
        Command::LongHigh(high) => long_high(kept, high, states),
        Command::VerifyByte(cv, value) => verified(
            kept,
            settings.verify_byte(cv, value, store, sheets),
        ),
        Command::WriteByte(cv, value) => after_write(
            kept,
            settings.write_byte(cv, value, store, sheets.sizes),
        ),
        Command::VerifyBit(cv, place, value) => verified(
            kept,
            settings.verify_bit(cv, place, value, store, sheets),
        ),
        Command::WriteBit(cv, place, value) => after_write(
            kept,
            settings.write_bit(cv, place, value, store, sheets),
        ),
        Command::Call {
            module,
            forced,
            status,
        } => called(kept, module, forced, status, room),
        Command::BankRead(asked, bank) => bank_read(kept, asked, bank, store, sheets, room),
        Command::ReadCv(cv) => cv_read(kept, cv, store, sheets, room),
        Command::PositionHigh(high) => held(kept, Half::PositionHalf, high),
        Command::PositionLow(low) => position_low(kept, low),
    }
}

// THE EFFECT OF A COMPLETED PACKET on a board whose record and buffers were checked: the record after
// it, and whether it is acknowledged; the reply stands in the first bytes of the room, of that length.
// A packet that means nothing drops a held half, as every command but a first half does.
pub fn packet(
    kept: Module,
    packet: Packet,
    states: &mut [u8],
    store: &mut [u8],
    sheets: Sheets<'_, '_>,
    room: &mut [u8],
) -> Reaction
    requires { board_refusal (board_of kept states.old store.old) (sheets_of sheets.sizes.now sheets.fixed.now) room.old ≡ 0 }
    ensures { left (told_of result) states.new store.new room.new ≡ leaves
        (packet_effect (board_of kept states.old store.old) (sheets_of sheets.entry.sizes.now sheets.entry.fixed.now) packet)
        room.old }
{
    match command::decode(packet) {
        Some(command) => obey(kept, command, states, store, sheets, room),
        None => nothing(kept),
    }
}
