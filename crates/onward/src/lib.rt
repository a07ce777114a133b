// Feeding a long recording on from where the feed stopped.
//
// `feed` feeds the edges of two lists from a place on and says from which place to go on: a caller
// that calls it until the place is the end has fed every edge but the bad ones, one call a stop, unless
// a call was refused. It asks nothing of its caller. Definition: specs/Onward.antt, over the feed's
// own. Laws: proofs/Laws.antt (every call goes on, none goes past the end, a reply has at most 84
// bytes).
#![tactic(auto)]

ghost use Rattle.std.specs.Prelude.{◌≡◌, ◌+◌, ◌≤◌, length};
ghost use Rattle.store.specs.Sheet.{sheets_of};
ghost use Rattle.board.specs.Board.{board_of};
ghost use Rattle.module.specs.Feed.{answer_as};
ghost use Rattle.onward.specs.Onward.{stop_as, start_of, edges_behind, place_after, stop_of, turn_as, onward_of};

use board::Module;
use module::{Answer, Sheets};
use refusals::Refusal;

// Why a feed stopped.
#[derive(Clone, Copy, PartialEq, Eq, Debug)]
pub enum Stop {
    // 2 or 3: the edge just before the place is bad, and left out.
    BadEdge(Refusal),
    // All edges were taken.
    Silent,
    // The edge just before the place completed an acknowledged command, and its reply has this length.
    Acknowledged(usize),
}

// The record after a feed, why it stopped, and the place from which to go on.
#[derive(Clone, Copy)]
pub struct Turn {
    pub kept: Module,
    pub stop: Stop,
    pub at: usize,
}

// A place past the end of a list counts as its end.
fn start(at: usize, n: usize) -> usize
    ensures { (result ≡ start_of at n) × (result ≤ n) }
{
    at.min(n)
}

fn reason(answer: Answer) -> Stop
    ensures { stop_as result ≡ stop_of (answer_as answer) }
{
    match answer {
        Answer::BadEdge(refusal, _) => Stop::BadEdge(refusal),
        Answer::Silent(_) => Stop::Silent,
        Answer::Acknowledged(_, length) => Stop::Acknowledged(length),
    }
}

// The place behind what an answer says of the edges from a start to the n-th.
fn place(answer: Answer, start: usize, n: usize) -> usize
    requires { start + edges_behind (answer_as answer) ≤ n }
    ensures { result ≡ place_after n start (answer_as answer) }
{
    match answer {
        Answer::BadEdge(_, taken) => start + taken + 1,
        Answer::Silent(_) => n,
        Answer::Acknowledged(taken, _) => start + taken,
    }
}

// `module::feed` of the edges from a place on. A bad edge is left out by going on behind it. Refuses as it
// does, by 12, 4, 5 and 1: nothing was taken then, and there is no place to go on from but the end. Two lists,
// as `module::feed` has.
pub fn feed(
    kept: Module,
    at: usize,
    times: &[u64],
    levels: &[u8],
    states: &mut [u8],
    store: &mut [u8],
    sheets: Sheets<'_, '_>,
    room: &mut [u8],
) -> Result<Turn, Refusal>
    ensures { turn_as kept (length times.now) result states.new store.new room.new ≡ onward_of
        (board_of kept states.old store.old) (sheets_of sheets.entry.sizes.now sheets.entry.fixed.now) room.old
        times.now levels.now at }
{
    let from = start(at, times.len());
    let levels_from = start(at, levels.len());
    let fed = module::feed(
        kept,
        &times[from..],
        &levels[levels_from..],
        states,
        store,
        sheets,
        room,
    )?;
    Ok(Turn {
        kept: fed.kept,
        stop: reason(fed.answer),
        at: place(fed.answer, from, times.len()),
    })
}
