// The bench: bus bytes on standard input, 100 µs a bit, for module 1; a line for each command on
// standard output. `lines::write` does the work, and is proved to write what the bench is to write;
// here bytes are read and lines written, in blocks.
#![tactic(auto)]

ghost use Rattle.std.specs.Prelude.{◌≡◌, length};
ghost use Rattle.io.specs.Counts.{IsPrefixLen};

use board::Module;
use std::io::{Read, Result};
use store::Sheets;

// The bytes of a block, and the room that its lines may need: 128 bytes for each, and for two more.
const BLOCK: usize = 4096;

const ROOM: usize = 524544;

// How many bytes a read brought; that it failed is said on standard error.
fn received(rt: &HostRuntime, got: Result<usize>, input: &[u8]) -> usize
    ensures { IsPrefixLen result input.now }
{
    match got {
        Ok(n) => n.min(input.len()),
        Err(_) => {
            let _ = rt.eprintln("bench: standard input could not be read");
            0
        }
    }
}

// Writes the lines; where that fails it says so on standard error.
fn write_lines(rt: &HostRuntime, lines: &[u8]) -> bool {
    let written = rt.write_all(lines).is_ok();
    if !written {
        let _ = rt.eprintln("bench: standard output could not be written");
    }
    written
}

// Reads once, and writes the lines of what came. It gives the record after it, or nothing where there was
// nothing to read or the lines could not be written.
fn take_block(
    rt: &HostRuntime,
    kept: Module,
    input: &mut [u8],
    states: &mut [u8],
    store: &mut [u8],
    sheets: Sheets<'_, '_>,
    reply: &mut [u8],
    out: &mut [u8],
) -> Option<Module> {
    let got = rt.stdin().read(input);
    let n = received(rt, got, input);
    if n == 0 {
        return None;
    }
    let written = lines::write(kept, &input[..n], states, store, sheets, reply, out);
    let Ok(lines) = written else {
        return Some(kept);
    };
    write_lines(rt, &out[..lines.text]).then_some(lines.kept)
}

// Room for the lines of a block: that many zeros.
fn room() -> [u8; ROOM]
    ensures { ROOM ≡ length result }
{
    [0; ROOM]
}

// Nothing says that an input ends, and this must: it takes more blocks than any run has.
fn main(rt: HostRuntime) {
    let mut kept = Module::new();
    let mut input = [0u8; BLOCK];
    let mut states = [0u8; 4096];
    let mut store = [0u8; 10240];
    let sheets = Sheets {
        sizes: &lines::sizes(),
        fixed: &lines::fixed(),
    };
    let mut reply = [0u8; 84];
    let mut out = room();
    for _ in 0..u64::MAX {
        let after = take_block(
            &rt,
            kept,
            &mut input,
            &mut states,
            &mut store,
            sheets,
            &mut reply,
            &mut out,
        );
        match after {
            Some(module) => kept = module,
            None => return,
        }
    }
}
