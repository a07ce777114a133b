// Each entry, called and nothing more, with the promise that the demands speak of: proved from the
// entry's contract alone, so that what a contract no longer said would be missed here, and with it
// the crate `demands`. The firmware's entry, which takes a `&mut Receiver`, is tied in its own crate
// (`firmware`, proofs/Tied.antt).
#![tactic(auto)]

ghost use Rattle.std.specs.Prelude.{◌≡◌};
ghost use Rattle.refusals.specs.Numbers.{refusal_in};
ghost use Rattle.line.specs.Line.{EdgePromise, edge_as, WholeAnswer};
ghost use Rattle.command.specs.Pairs.{address_halves, paired, LongStatePromise};
ghost use Rattle.store.specs.Sheet.{sheets_of};
ghost use Rattle.host.specs.Encode.{encoded_as, EncodePromise};
ghost use Rattle.host.specs.ReadBank.{read_as, ReadBankPromise};
ghost use Rattle.board.specs.Board.{board_of};
ghost use Rattle.module.specs.Feed.{FeedPromise, fed_as};
ghost use Rattle.module.specs.Application.{RestartPromise, PostPromise, StatusPromise, WaitPromise, kept_as, restart};
ghost use Rattle.counts.specs.Counts.{counted_as, ShownPromise, CheckedPromise};
ghost use Rattle.view.specs.View.{ViewRefusalPromise, ViewPromise};
ghost use Rattle.lines.specs.Taken.{WritePromise, leaving, given_as};

use board::Module;
use command::{Command, Halves};
use counts::Counts;
use line::{Heard, Packet, Receiver};
use lines::{Lines, Untaken};
use module::Fed;
use refusals::Refusal;
use store::Sheets;

pub fn feed(
    kept: Module,
    times: &[u64],
    levels: &[u8],
    states: &mut [u8],
    store: &mut [u8],
    sheets: Sheets<'_, '_>,
    room: &mut [u8],
) -> Result<Fed, Refusal>
    ensures { FeedPromise (board_of kept states.old store.old)
        (sheets_of sheets.entry.sizes.now sheets.entry.fixed.now) room.old times.now levels.now
        (fed_as kept result states.new store.new room.new) }
{
    module::feed(kept, times, levels, states, store, sheets, room)
}

pub fn restart(kept: Module, states: &mut [u8]) -> Result<Module, Refusal>
    ensures { RestartPromise kept states.old (restart (kept_as kept result) states.new) }
{
    module::restart(kept, states)
}

pub fn post(kept: Module, message: [u8; 4]) -> Result<Module, Refusal>
    ensures { PostPromise kept message (kept_as kept result) }
{
    module::post(kept, message)
}

pub fn set_status(kept: Module, number: u8, value: u8) -> Result<Module, Refusal>
    ensures { StatusPromise kept number value (kept_as kept result) }
{
    module::set_status(kept, number, value)
}

pub fn set_wait(kept: Module, on: bool) -> Result<Module, Refusal>
    ensures { WaitPromise kept on (kept_as kept result) }
{
    module::set_wait(kept, on)
}

pub fn edge(receiver: Receiver, time: u64, level: u8) -> Result<Heard, Refusal>
    ensures answer { EdgePromise receiver time level (edge_as receiver result) }
    ensures whole { WholeAnswer result }
{
    receiver.edge(time, level)
}

pub fn address(address: u16) -> Halves
    ensures { result ≡ address_halves address }
{
    Command::address(address)
}

pub fn long_state(number: u16, on: bool) -> Result<Halves, Refusal>
    ensures { LongStatePromise number on (paired result) }
{
    Command::long_state(number, on)
}

pub fn encode(command: Command) -> Result<Packet, Refusal>
    ensures { EncodePromise command (encoded_as result) }
{
    host::encode(command)
}

pub fn read_bank(reply: &[u8], room: &mut [u8]) -> Result<usize, Refusal>
    ensures { ReadBankPromise reply.now room.old (read_as result) room.new }
{
    host::read_bank(reply, room)
}

pub fn write(
    kept: Module,
    input: &[u8],
    states: &mut [u8],
    store: &mut [u8],
    sheets: Sheets<'_, '_>,
    room: &mut [u8],
    out: &mut [u8],
) -> Result<Lines, Untaken>
    ensures { WritePromise (board_of kept states.old store.old)
        (sheets_of sheets.entry.sizes.now sheets.entry.fixed.now) room.old out.old input.now
        (leaving (given_as kept result) states.new store.new room.new out.new) }
{
    lines::write(kept, input, states, store, sheets, room, out)
}

pub fn shown_counts(kept: Module) -> Result<Counts, Refusal>
    ensures { ShownPromise kept (counted_as result) }
{
    counts::shown_counts(kept)
}

pub fn checked_counts(kept: Module, states: &[u8]) -> Result<Counts, Refusal>
    ensures { CheckedPromise kept states.now (counted_as result) }
{
    counts::checked_counts(kept, states)
}

pub fn view_refusal(store: &[u8], sheets: Sheets<'_, '_>) -> Result<(), Refusal>
    ensures { ViewRefusalPromise store.now (sheets_of sheets.entry.sizes.now sheets.entry.fixed.now) (refusal_in result) }
{
    view::view_refusal(store, sheets)
}

pub fn bank_view<'a>(store: &'a [u8], sheets: Sheets<'_, 'a>, bank: u8) -> &'a [u8]
    ensures { ViewPromise store.now (sheets_of sheets.entry.sizes.now sheets.entry.fixed.now) bank result.now }
{
    view::bank_view(store, sheets, bank)
}
