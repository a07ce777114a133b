// One call of the feed: edges in, to the first acknowledged command or to the end.
ghost use Rattle.std.specs.Prelude.{◌≡◌, length};
ghost use Rattle.line.specs.Wire.{edges_of};
ghost use Rattle.store.specs.Sheet.{sheets_of};
ghost use Rattle.board.specs.Board.{board_of, board_refusal};
ghost use Rattle.module.specs.Feed.{FeedPromise, fed_as, ran_as, run_of};

use crate::listen::{after_listening, listen};
use board::Module;
use cells::Sheets;
use refusals::Refusal;

// What a feed answers, beside the record.
#[derive(Clone, Copy, PartialEq, Eq, Debug)]
pub enum Answer {
    // The next edge is bad, 2 or 3, and so many edges were taken before it.
    BadEdge(Refusal, usize),
    // All edges were taken, so many, and no command was acknowledged.
    Silent(usize),
    // So many edges were taken, the last of which completed an acknowledged command, and its reply has
    // this length.
    Acknowledged(usize, usize),
}

// The record after a feed, and its answer.
#[derive(Clone, Copy)]
pub struct Fed {
    pub kept: Module,
    pub answer: Answer,
}

// Each exit of `run` is a record beside an answer: written out there, they would make it longer than a page.
fn answered(kept: Module, answer: Answer) -> Fed
    ensures { result ≡ record { kept = kept; answer = answer } }
{
    Fed { kept, answer }
}

// A packet a turn: the receiver alone takes the edges up to it, then it has its effect. It asks for what `feed` has
// checked: any record and any lengths can be handed in there.
fn run(
    from: Module,
    times: &[u64],
    levels: &[u8],
    states: &mut [u8],
    store: &mut [u8],
    sheets: Sheets<'_, '_>,
    room: &mut [u8],
) -> Fed
    requires room_value { board_refusal (board_of from states.old store.old) (sheets_of sheets.sizes.now sheets.fixed.now) room.old ≡ 0 }
    requires times_len { length times.now ≡ length levels.now }
    ensures { ran_as result states.new store.new room.new ≡ run_of
        (board_of from states.old store.old) (sheets_of sheets.entry.sizes.now sheets.entry.fixed.now) room.old 0
        (edges_of times.now levels.now) }
{
    let mut kept = from;
    let mut taken: usize = 0;
    loop {
        let heard = listen(kept.receiver, times, levels, taken);
        kept = after_listening(kept, heard.receiver, heard.paused);
        taken = heard.taken;
        let completed = match heard.end {
            Ok(completed) => completed,
            Err(refusal) => return answered(kept, Answer::BadEdge(refusal, taken)),
        };
        let Some(packet) = completed else {
            return answered(kept, Answer::Silent(taken));
        };
        let reaction = effects::packet(kept, packet, states, store, sheets, room);
        let reply = reaction.reply;
        if let Some(length) = reply {
            return answered(reaction.kept, Answer::Acknowledged(taken, length));
        }
        kept = reaction.kept;
    }
}

// Takes edges, one for each entry of the two lists, until one completes an acknowledged command, or
// all of them. The record comes back, with how many were taken; a reply stands at the front of the
// room. Refuses with 12 an impossible record, with 4 buffers of other lengths, with 5 a sheet that
// breaks its rule, with 1 lists of two lengths, and then record and buffers are as they were;
// with 2 and 3 a bad edge, and then they are as the edges before it left them. Times and levels are two lists
// and no list of pairs: refusal 1 is for lists of two lengths.
pub fn feed(
    kept: Module,
    times: &[u64],
    levels: &[u8],
    states: &mut [u8],
    store: &mut [u8],
    sheets: Sheets<'_, '_>,
    room: &mut [u8],
) -> Result<Fed, Refusal>
    ensures { FeedPromise (board_of kept states.old store.old)
        (sheets_of sheets.entry.sizes.now sheets.entry.fixed.now) room.old times.now levels.now
        (fed_as kept result states.new store.new room.new) }
{
    kept.refusal(states, store, sheets, room)?;
    if times.len() != levels.len() {
        return Err(Refusal::Uneven);
    }
    Ok(run(kept, times, levels, states, store, sheets, room))
}
