// The program `pace`: a recording on standard input, fed to the bench's board; on standard output
// how many edges were fed, how many of them were refused and how many completed an acknowledged
// command, and a sum over all that came of it, so that no part of the work can be left out. It is for
// measuring `module::feed`.
//
// A byte is an edge: bit 7 its level, bits 0 to 6 the time since the edge before, in hundreds of
// microseconds.
#![tactic(auto)]

ghost use Rattle.std.specs.Prelude.{◌≤◌};

mod feeding;
mod sums;

use feeding::{Pace, feed_block};
use std::io;
use std::io::Read;
use std::rt::Stdin;
use store::Sheets;

// The times and levels of some bytes. The time of the last of them comes back.
fn spread(input: &[u8], from: u64, times: &mut [u64; 4096], levels: &mut [u8; 4096]) -> u64 {
    let mut last = from;
    for ((byte, time), level) in input.iter().zip(times.iter_mut()).zip(levels.iter_mut()) {
        last = last.wrapping_add(u64::from(*byte % 128) * 100);
        *time = last;
        *level = *byte / 128;
    }
    last
}

// Reads once; a read that fails brings nothing.
fn read_block(stdin: &mut Stdin, input: &mut [u8; 4096]) -> usize
    ensures { result ≤ 4096 }
{
    stdin.read(input).unwrap_or(0)
}

// It stops at the first line that cannot be written.
fn report(rt: &HostRuntime, end: Pace, states: &[u8; 4096], store: &[u8; 10240]) -> io::Result<()> {
    println!(rt; "edges {}", end.edges)?;
    println!(rt; "refused {}", end.refused)?;
    println!(rt; "answers {}", end.answers)?;
    let sum = sums::of_record(end.sum, end.kept);
    let sum = sums::of_bytes(sum, states);
    let sum = sums::of_bytes(sum, store);
    println!(rt; "sum {sum}")
}

// Nothing says that an input ends, and this must: it reads more blocks than any run has.
fn main(rt: HostRuntime) {
    let mut stdin = rt.stdin();
    let mut input = [0u8; 4096];
    let mut times = [0u64; 4096];
    let mut levels = [0u8; 4096];
    let mut states = [0u8; 4096];
    let mut store = [0u8; 10240];
    let sheets = Sheets {
        sizes: &lines::sizes(),
        fixed: &lines::fixed(),
    };
    let mut room = [0u8; 84];
    let mut pace = Pace::new();
    for _ in 0..u64::MAX {
        let n = read_block(&mut stdin, &mut input);
        if n == 0 {
            break;
        }
        let time = spread(&input[..n], pace.time, &mut times, &mut levels);
        pace = feed_block(
            pace.at(time),
            &times[..n],
            &levels[..n],
            &mut states,
            &mut store,
            sheets,
            &mut room,
        );
    }
    if report(&rt, pace, &states, &store).is_err() {
        let _ = rt.eprintln("pace: standard output could not be written");
    }
}
