// Pieces: edges gather in blocks, and a block is fed when it is full and more edges come, or when the
// piece ends. That feeding in blocks gives what the whole piece gives is demand 3.
ghost use Rattle.std.specs.Prelude.{◌<◌, ◌≤◌, length, IfOk};

use crate::bench::{Bench, Part};
use onward::{Stop, Turn};
use panel::Output;
use refusals::Refusal;
use scenario::Statement;

// A block is full with so many edges. A line adds 2,400 at most: 300 bytes.
const FULL: usize = 512;

// The gathered edges are behind.
fn passed(bench: Bench, part: Part) -> Bench {
    let mut after = bench;
    after.before = bench.before.wrapping_add(bench.gathered as u64);
    after.uneven = bench.uneven && bench.gathered == 0;
    after.dropped = bench.dropped && part != Part::End;
    after.gathered = 0;
    after.due = None;
    after
}

fn feed_now(bench: Bench, part: Part) -> Bench {
    if bench.dropped {
        return passed(bench, part);
    }
    let mut after = bench;
    after.due = Some(part);
    after
}

// A piece ends; one without edges is not fed.
fn end_piece(bench: Bench) -> Bench {
    if bench.gathered == 0 {
        return bench;
    }
    feed_now(bench, Part::End)
}

fn make_room(bench: Bench) -> Bench {
    if bench.gathered < FULL {
        return bench;
    }
    feed_now(bench, Part::Block)
}

// What is due before a statement: edges join the piece, every other statement ends it. `cut` feeds a
// piece that has no edges too.
pub fn due_before(bench: Bench, statement: Statement, last: bool) -> Bench {
    match statement {
        Statement::Blank => {
            if last {
                return end_piece(bench);
            }
            bench
        }
        Statement::Edge(_, _) => make_room(bench),
        Statement::Bytes(_, _) => make_room(bench),
        Statement::Cut => feed_now(bench, Part::End),
        _ => end_piece(bench),
    }
}

// How many levels are lent with n times.
fn levels_for(n: usize, uneven: bool) -> usize {
    if uneven { n.saturating_sub(1) } else { n }
}

// A feed of the first n edges from a place on, with the buffers as long as they are lent. One that is not
// refused goes on, and not past them.
fn feed_from(
    bench: Bench,
    at: usize,
    n: usize,
    times: &[u64],
    levels: &[u8],
    states: &mut [u8],
    store: &mut [u8],
    room: &mut [u8],
) -> Result<Turn, Refusal>
    requires { n ≤ length times.now }
    ensures { IfOk result (λ turn. (at < n → at < turn.at) × (turn.at ≤ n)) }
{
    let m = levels_for(n, bench.uneven).min(levels.len());
    let a = bench.states_length.min(states.len());
    let b = bench.store_length.min(store.len());
    let c = bench.room_length.min(room.len());
    onward::feed(
        bench.kept,
        at,
        &times[..n],
        &levels[..m],
        &mut states[..a],
        &mut store[..b],
        bench.sheets(),
        &mut room[..c],
    )
}

// The time of the edge before a place of the block.
fn time_before(times: &[u64; 3000], at: usize) -> u64 {
    match times[..at.min(3000)].last() {
        Some(time) => *time,
        None => 0,
    }
}

// An edge that completed an acknowledged command, its time and the reply.
fn put_answer(out: &mut Output, edge: u64, time: u64, reply: &[u8]) {
    out.put_words("ack", &[edge, time]);
    out.put_bytes(reply);
}

// Why a feed stopped behind an edge of the scenario; of a bad edge, how many of the scenario came before it.
fn put_stop(out: &mut Output, stop: Stop, edge: u64, time: u64, room: &[u8; 200]) {
    match stop {
        Stop::BadEdge(refusal) => {
            let row = [u64::from(refusal.number()), edge.wrapping_sub(1)];
            out.put_row("refused", &row);
        }
        Stop::Silent => {}
        Stop::Acknowledged(length) => put_answer(out, edge, time, &room[..length.min(200)]),
    }
}

// A refusal of the whole feed changes nothing, and drops the rest of the piece.
fn refused(bench: Bench, refusal: Refusal, out: &mut Output) -> Bench {
    out.put_row("refused", &[u64::from(refusal.number())]);
    let mut after = bench;
    after.dropped = true;
    after
}

// The number in the scenario of the edge before a place of the block.
fn edge_before(bench: Bench, at: usize) -> u64 {
    bench.before.wrapping_add(at as u64)
}

// Feeds what is gathered, on from where the feed stopped until it is used up or refused.
fn feed(
    from: Bench,
    times: &[u64; 3000],
    levels: &[u8; 3000],
    states: &mut [u8; 4200],
    store: &mut [u8; 10300],
    out: &mut Output,
) -> Bench {
    let mut room = [0u8; 200];
    let n = from.gathered.min(3000);
    let mut bench = from;
    let mut at = 0;
    loop {
        let turn = match feed_from(bench, at, n, times, levels, states, store, &mut room) {
            Ok(turn) => turn,
            Err(refusal) => return refused(bench, refusal, out),
        };
        at = turn.at;
        let time = time_before(times, at);
        put_stop(out, turn.stop, edge_before(bench, at), time, &room);
        bench = bench.with_record(turn.kept);
        if n <= at {
            return bench;
        }
    }
}

// Where it is due: feeds what is gathered, and it is behind then.
pub fn feed_due(
    bench: Bench,
    times: &[u64; 3000],
    levels: &[u8; 3000],
    states: &mut [u8; 4200],
    store: &mut [u8; 10300],
    out: &mut Output,
) -> Bench {
    let Some(part) = bench.due else {
        return bench;
    };
    passed(feed(bench, times, levels, states, store, out), part)
}

fn keep_edge(
    bench: Bench,
    time: u64,
    level: u8,
    times: &mut [u64; 3000],
    levels: &mut [u8; 3000],
) -> Bench {
    let at = bench.gathered;
    if at < 3000 {
        times[at] = time;
        levels[at] = level;
        let mut after = bench;
        after.gathered = at + 1;
        return after;
    }
    bench
}

// The edges of a byte, bit 0 first, 100 µs apart.
fn keep_byte(
    from: Bench,
    time: u64,
    byte: u8,
    times: &mut [u64; 3000],
    levels: &mut [u8; 3000],
) -> Bench {
    let mut bench = from;
    let mut left = byte;
    for i in 0..8 {
        bench = keep_edge(bench, time.wrapping_add(100 * i), left % 2, times, levels);
        left /= 2;
    }
    bench
}

// The edges of a `bytes` line, which says n bytes from its third word on.
fn keep_bytes(
    from: Bench,
    time: u64,
    n: usize,
    line: &[u8],
    times: &mut [u64; 3000],
    levels: &mut [u8; 3000],
) -> Bench {
    let mut bench = from;
    let mut then = time;
    for k in 0..n.min(300) {
        let byte = scenario::hex_byte(line, k + 2);
        bench = keep_byte(bench, then, byte, times, levels);
        then = then.wrapping_add(800);
    }
    bench
}

// The edges of a statement join the piece.
pub fn gather(
    bench: Bench,
    statement: Statement,
    line: &[u8],
    times: &mut [u64; 3000],
    levels: &mut [u8; 3000],
) -> Bench {
    match statement {
        Statement::Edge(time, level) => keep_edge(bench, time, level, times, levels),
        Statement::Bytes(time, n) => keep_bytes(bench, time, n, line, times, levels),
        _ => bench,
    }
}
