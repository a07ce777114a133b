// The bench's lines: bus bytes in, a line for each command out.
//
// `write` takes a block of bytes and is right for any blocks: the record that it gives goes into the next
// call, and of a refused call the record that it was given. It asks nothing of its caller. Definitions: specs/Lines.antt (what the bench writes, by the
// whole recording), specs/Taken.antt (a block, and the promise of `write`). Laws: proofs/Text.antt
// (the text of all bytes is the bench's), proofs/Blocks.antt (in any blocks), proofs/Given.antt (no two
// answers are said alike).
#![tactic(auto)]

ghost use Rattle.std.specs.Prelude.{◌≡◌, true, false, ◌∷◌, [], ◌+◌, ◌*◌, ◌≤◌, leb, length};
ghost use Rattle.text.specs.Text.{hex_of};
ghost use Rattle.store.specs.Sheet.{sheets_of};
ghost use Rattle.board.specs.Board.{board_of, board_refusal};
ghost use Rattle.module.specs.Bench.{bench_sheets};
ghost use Rattle.lines.specs.Lines.{spaced, line_of};
ghost use Rattle.lines.specs.declared.Untaken.TheVariants.{Refused};
ghost use Rattle.lines.specs.Taken.{placed, taken_of, long_enough, leaving, wrote, wrote_as, given_as, WritePromise};

use board::Module;
use cells::Sheets;
use refusals::Refusal;

// Why a block of bytes was not taken. Then nothing changed.
#[derive(Clone, Copy, PartialEq, Eq, Debug)]
pub enum Untaken {
    // 12, 4 or 5, in the table's sense.
    Refused(Refusal),
    // The receiver holds bits, which whole bytes cannot join.
    BitsHeld,
    // `out` has less than 128 bytes for each byte and two more.
    NoRoomForText,
}

impl From<Refusal> for Untaken {
    ghost from_gives = { λ why untaken. untaken ≡ Refused why };

    fn from(why: Refusal) -> Untaken {
        Untaken::Refused(why)
    }
}

// The record after a block, and how many bytes of text stand at the front of `out`, which is lent: nothing
// here has a heap.
#[derive(Clone, Copy)]
pub struct Lines {
    pub kept: Module,
    pub text: usize,
}

// The bench's size sheet: 40 for banks 0 and 1, 2 for bank 254, else 0. Its length is no parameter, here
// and below: callers, the README's among them, name none.
pub fn sizes() -> [u8; 256]
    ensures { result ≡ bench_sheets.sizes }
{
    let mut sheet = [0u8; 256];
    sheet[0] = 40;
    sheet[1] = 40;
    sheet[254] = 2;
    sheet
}

// The bench's fixed sheet: the SUSI version at offset 1, else 0.
pub fn fixed() -> [u8; 40]
    ensures { result ≡ bench_sheets.fixed }
{
    let mut fixed = [0u8; 40];
    fixed[1] = 11;
    fixed
}

// A line takes at most 256 bytes, and a command has two bytes at least.
const ROOM_A_BYTE: usize = 128;

// Puts bytes at their place, and leaves every other byte alone.
fn put(out: &mut [u8], at: usize, bytes: &[u8])
    requires { at + length bytes.now ≤ length out.old }
    ensures { out.new ≡ placed at bytes.now out.old }
{
    out[at..at + bytes.len()].copy_from_slice(bytes);
}

// A space and two digits.
fn put_byte(out: &mut [u8], at: usize, byte: u8)
    requires { at + 3 ≤ length out.old }
    ensures { out.new ≡ placed at (32 ∷ hex_of byte) out.old }
{
    let digits = text::hex(byte);
    put(out, at, &[b' ', digits[0], digits[1]]);
}

// The bytes of a reply.
fn put_reply(out: &mut [u8], at: usize, reply: &[u8])
    requires { at + 3 * length reply.now ≤ length out.old }
    ensures { out.new ≡ placed at (spaced reply.now) out.old }
{
    for (i, byte) in reply.iter().enumerate() {
        put_byte(out, at + 3 * i, *byte);
    }
}

// The line of a command that is not acknowledged; gives the place past it.
fn put_dash(out: &mut [u8], at: usize) -> usize
    requires { at + 2 ≤ length out.old }
    ensures value { result ≡ at + length (line_of false []) }
    ensures out_after { out.new ≡ placed at (line_of false []) out.old }
{
    put(out, at, b"-\n");
    at + 2
}

// The line of one that is, with these bytes of reply; gives the place past it.
fn put_acknowledged(out: &mut [u8], at: usize, reply: &[u8]) -> usize
    requires at_in_bounds { at + 256 ≤ length out.old }
    requires reply_len_bound { length reply.now ≤ 84 }
    ensures value { result ≡ at + length (line_of true reply.now) }
    ensures out_after { out.new ≡ placed at (line_of true reply.now) out.old }
{
    put(out, at, b"ACK");
    put_reply(out, at + 3, reply);
    let end = at + 3 + 3 * reply.len();
    put(out, end, b"\n");
    end + 1
}

// The receiver is kept apart from the record, which a command alone looks at. It asks for what `write` has
// checked: any record and any lengths can be handed in there.
fn run(
    from: Module,
    input: &[u8],
    states: &mut [u8],
    store: &mut [u8],
    sheets: Sheets<'_, '_>,
    room: &mut [u8],
    out: &mut [u8],
) -> Lines
    requires room_value { board_refusal (board_of from states.old store.old) (sheets_of sheets.sizes.now sheets.fixed.now) room.old ≡ 0 }
    requires count_value { from.receiver.count ≡ 0 }
    requires out_value { long_enough input.now out.old ≡ true }
    ensures { leaving (wrote_as result) states.new store.new room.new out.new ≡ wrote
        (taken_of (board_of from states.old store.old)
        (sheets_of sheets.entry.sizes.now sheets.entry.fixed.now) room.old input.now) out.old }
{
    let mut kept = from;
    let mut receiver = from.receiver;
    let mut text: usize = 0;
    for byte in input {
        let heard = receiver.with_byte(*byte);
        receiver = heard.receiver;
        let Some(packet) = heard.packet else {
            continue;
        };
        let reaction = effects::packet(kept, packet, states, store, sheets, room);
        kept = reaction.kept;
        text = match reaction.reply {
            None => put_dash(out, text),
            Some(length) => put_acknowledged(out, text, &room[..length]),
        };
    }
    Lines {
        kept: kept.with_receiver(receiver),
        text,
    }
}

fn long_enough(input: usize, out: usize) -> bool
    ensures { result ≡ leb (128 * (input + 2)) out }
{
    let blocks = out / ROOM_A_BYTE;
    blocks >= 2 && input <= blocks - 2
}

// Takes whole bus bytes: a board whose receiver holds no bits hears them, and the lines of the
// commands that they complete stand at the front of `out`. Refuses with 12 an impossible record, with
// 4 buffers of other lengths, with 5 a sheet that breaks its rule, as `module::feed` does; and it
// takes nothing where bits are held, or where `out` has less than 128 bytes for each byte and two
// more. Then record and buffers are as they were.
pub fn write(
    kept: Module,
    input: &[u8],
    states: &mut [u8],
    store: &mut [u8],
    sheets: Sheets<'_, '_>,
    room: &mut [u8],
    out: &mut [u8],
) -> Result<Lines, Untaken>
    ensures { WritePromise (board_of kept states.old store.old)
        (sheets_of sheets.entry.sizes.now sheets.entry.fixed.now) room.old out.old input.now
        (leaving (given_as kept result) states.new store.new room.new out.new) }
{
    kept.refusal(states, store, sheets, room)?;
    if kept.receiver.count != 0 {
        return Err(Untaken::BitsHeld);
    }
    if !long_enough(input.len(), out.len()) {
        return Err(Untaken::NoRoomForText);
    }
    Ok(run(kept, input, states, store, sheets, room, out))
}
