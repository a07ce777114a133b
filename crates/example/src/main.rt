// The program `example`: a module, the buffers that it is lent, a recording, and the answer to it. The recording
// is the command 0F 85, read CV 902: its bits, bit 0 of each byte first, 1 µs apart.
#![tactic(auto)]

use module::{Answer, Module, Sheets};
use std::fmt::Display;

fn main(rt: HostRuntime) {
    let times = [0u64, 1, 2, 3, 4, 5, 6, 7, 8, 9, 10, 11, 12, 13, 14, 15];
    let levels = [1u8, 1, 1, 1, 0, 0, 0, 0, 1, 0, 1, 0, 0, 0, 0, 1];
    let mut states = [0u8; 4096];
    let mut store = [0u8; 10240];
    store[2] = 7; // CV 902 stands in bank 0 at offset 2
    let sheets = Sheets {
        sizes: &lines::sizes(), // banks 0 and 1 have 40 cells
        fixed: &lines::fixed(), // bank 254: the SUSI version
    };
    let mut room = [0u8; 84];
    let fed = module::feed(
        Module::new(),
        &times,
        &levels,
        &mut states,
        &mut store,
        sheets,
        &mut room,
    );
    match fed.map(|fed| fed.answer) {
        Ok(Answer::Acknowledged(edges, length)) => acknowledged(&rt, edges, length, room[1]),
        _ => put(&rt, "not acknowledged\n"),
    }
}

// A reply 8F v 8F 00 has the value as its second byte.
fn acknowledged(rt: &HostRuntime, edges: usize, length: usize, value: u8) {
    put(rt, "acknowledged at edge ");
    put(rt, edges);
    put(rt, ", a reply of ");
    put(rt, length);
    put(rt, " bytes, CV 902 is ");
    put(rt, value);
    put(rt, "\n");
}

// A piece of text on standard output; each that cannot be written is said on standard error, by the program's
// name: so each program has its own.
fn put<D: Display + Drop>(rt: &HostRuntime, piece: D) {
    if rt.print(piece).is_err() {
        let _ = rt.eprintln("example: standard output could not be written");
    }
}
