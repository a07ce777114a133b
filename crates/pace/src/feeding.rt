// Blocks: a block is fed on from where the feed stopped until it is used up.
use crate::sums;
use board::Module;
use onward::{Stop, Turn};
use store::Sheets;

#[derive(Clone, Copy)]
pub struct Pace {
    pub kept: Module,
    // The time of the last edge of this block.
    pub time: u64,
    // The edges of the blocks before, those of them that were refused, and those that completed an
    // acknowledged command.
    pub edges: u64,
    pub refused: u64,
    pub answers: u64,
    // The sum over the answers.
    pub sum: u64,
}

impl Pace {
    pub fn new() -> Pace {
        Pace {
            kept: Module::new(),
            time: 0,
            edges: 0,
            refused: 0,
            answers: 0,
            sum: 0,
        }
    }

    pub fn at(mut self, time: u64) -> Pace {
        self.time = time;
        self
    }

    fn with_record(mut self, kept: Module) -> Pace {
        self.kept = kept;
        self
    }

    fn passed(mut self, n: usize) -> Pace {
        self.edges = self.edges.wrapping_add(n as u64);
        self
    }

    fn refusing(mut self, n: usize) -> Pace {
        self.refused = self.refused.wrapping_add(n as u64);
        self
    }

    // The edge before a place of the block was acknowledged, with the front of the room as reply.
    fn answered(mut self, at: usize, room: &[u8; 84], length: usize) -> Pace {
        let edge = self.edges.wrapping_add(at as u64);
        self.answers = self.answers.wrapping_add(1);
        self.sum = sums::with(self.sum, edge);
        if let Some(reply) = room.get(..length) {
            self.sum = sums::of_bytes(self.sum, reply);
        }
        self
    }
}

// Why a turn stopped before its place. A bad edge is left out.
fn told(pace: Pace, turn: Turn, room: &[u8; 84]) -> Pace {
    let after = pace.with_record(turn.kept);
    match turn.stop {
        Stop::BadEdge(_) => after.refusing(1),
        Stop::Silent => after,
        Stop::Acknowledged(length) => after.answered(turn.at, room, length),
    }
}

// Feeds a block. Where a feed is refused, so is the rest of it.
pub fn feed_block(
    from: Pace,
    times: &[u64],
    levels: &[u8],
    states: &mut [u8; 4096],
    store: &mut [u8; 10240],
    sheets: Sheets<'_, '_>,
    room: &mut [u8; 84],
) -> Pace {
    let n = times.len();
    let mut pace = from;
    let mut at = 0;
    // Each feed says where to go on: no index is counted.
    while at < n {
        let fed = onward::feed(pace.kept, at, times, levels, states, store, sheets, room);
        let Ok(turn) = fed else {
            return pace.refusing(n - at).passed(n);
        };
        pace = told(pace, turn, room);
        at = turn.at;
    }
    pace.passed(n)
}
