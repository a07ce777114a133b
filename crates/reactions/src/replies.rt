// The commands that are answered with bytes: 0x01, 0x0C to 0x0E, 0x0F.
ghost use Rattle.std.specs.Prelude.{◌≡◌, true, [], length, ◌≤◌};
ghost use Rattle.bank.specs.Reply.{at_front};
ghost use Rattle.store.specs.Sheet.{sheets_of, lengths_hold, sheets_hold};
ghost use Rattle.board.specs.Board.{board_of};
ghost use Rattle.reactions.specs.Reactions.{told_of, reply_count, reply_bytes, reaction_of, call_effect, bank_effect, cv_effect};

use crate::Reaction;
use crate::reaction::nothing;
use board::Module;
use cells::Sheets;

// Puts the four bytes of a short reply at the front of the room where there is one, and gives its
// length. The rest of the room stays as it was.
fn short_reply(reply: Option<[u8; 4]>, room: &mut [u8]) -> Option<usize>
    requires { 84 ≤ length room.old }
    ensures value { result ≡ reply_count reply }
    ensures room_after { room.new ≡ at_front (reply_bytes reply) room.old }
{
    let bytes = reply?;
    bank::put(room, 0, bytes);
    Some(4)
}

// A 0x01 call, answered from statuses and queue.
pub fn called(kept: Module, number: u8, forced: bool, status: u8, room: &mut [u8]) -> Reaction
    requires { 84 ≤ length room.old }
    ensures value { told_of result ≡ reaction_of (call_effect (board_of kept [] []) number forced status) }
    ensures room_after { room.new ≡ at_front (call_effect (board_of kept [] []) number forced status).reply room.old }
{
    let call = kept
        .bidi
        .call(kept.settings.module_number(), number, forced, status);
    Reaction {
        kept: kept.without_half().with_bidi(call.bidi),
        reply: short_reply(call.reply, room),
    }
}

// A bank read, by the number of the module asked and the bank's own, whatever CV 1021 holds. What it asks of
// sheets and room, `cv_read` too, a feed has checked: refusals 4 and 5 are for others.
pub fn bank_read<'a>(
    kept: Module,
    asked: u8,
    bank: u8,
    store: &'a [u8],
    sheets: Sheets<'_, 'a>,
    room: &mut [u8],
) -> Reaction
    requires fixed_value { lengths_hold store.now (sheets_of sheets.sizes.now sheets.fixed.now) ≡ true }
    requires fixed_value_2 { sheets_hold (sheets_of sheets.sizes.now sheets.fixed.now) ≡ true }
    requires in_bounds { 84 ≤ length room.old }
    ensures value { told_of result ≡ reaction_of
        (bank_effect (board_of kept [] store.now) (sheets_of sheets.entry.sizes.now sheets.entry.fixed.now) asked bank) }
    ensures room_after { room.new ≡ at_front
        (bank_effect (board_of kept [] store.now) (sheets_of sheets.entry.sizes.now sheets.entry.fixed.now) asked bank).reply
        room.old }
{
    if asked != kept.settings.module_number() {
        return nothing(kept);
    }
    if cells::size_of(sheets.sizes, bank) == 0 {
        return nothing(kept);
    }
    let length = bank::write_reply(cells::bank_cells(store, sheets, bank), room);
    Reaction {
        kept: kept.without_half(),
        reply: Some(length),
    }
}

// A 0x0F read of a CV and the next.
pub fn cv_read<'a>(
    kept: Module,
    cv: u16,
    store: &'a [u8],
    sheets: Sheets<'_, 'a>,
    room: &mut [u8],
) -> Reaction
    requires fixed_value { lengths_hold store.now (sheets_of sheets.sizes.now sheets.fixed.now) ≡ true }
    requires fixed_value_2 { sheets_hold (sheets_of sheets.sizes.now sheets.fixed.now) ≡ true }
    requires in_bounds { 84 ≤ length room.old }
    ensures value { told_of result ≡ reaction_of (cv_effect (board_of kept [] store.now) (sheets_of sheets.entry.sizes.now sheets.entry.fixed.now) cv) }
    ensures room_after { room.new ≡ at_front
        (cv_effect (board_of kept [] store.now) (sheets_of sheets.entry.sizes.now sheets.entry.fixed.now) cv).reply room.old }
{
    let answer = bidi::read_cv(kept.settings, cv, store, sheets);
    Reaction {
        kept: kept.without_half(),
        reply: short_reply(answer, room),
    }
}
