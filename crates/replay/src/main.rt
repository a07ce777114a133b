// The program `replay`: a scenario on standard input, what it gives on standard output, and what is wrong with
// it on standard error (docs/REPLAY.md). What a line says is the crate `scenario`'s to say, and feeding on
// from where a feed stopped the crate `onward`'s; `reading` gives the lines, `trial` feeds the edges,
// `panel` writes, `faults` says what is wrong; here the module is asked.
#![tactic(auto)]

mod statements;

use panel::Output;
use reading::{Input, Line, Reading, read_on, take_part};
use statements::run;
use std::rt::Stderr;
use trial::{Bench, Cause};

// Why the program stopped at a line.
fn say_cause(to: Stderr, cause: Cause, number: u64, line: &[u8]) {
    match cause {
        Cause::NotAStatement => faults::not_a_statement(to, number, line),
        Cause::TooLong => faults::too_long(to, number),
        Cause::AfterAnEdge => faults::after_an_edge(to, number, line),
    }
}

// Nothing says that an input ends, and this must: it reads more blocks than any run has. It is done when the
// input is over, when the program stops at a line, and when what it writes is lost.
fn main(rt: HostRuntime) {
    let mut stdin = rt.stdin();
    let mut input = [0u8; 65536];
    let mut out = Output::new(rt.stdout());
    let mut line = [0u8; 1000];
    let mut times = [0u64; 3000];
    let mut levels = [0u8; 3000];
    let mut states = [0u8; 4200];
    let mut store = [0u8; 10300];
    let mut bench = Bench::new();
    let mut reading = Reading::new();
    for _ in 0..u64::MAX {
        reading = read_on(reading, &mut stdin, &mut input, &mut out);
        reading = take_part(reading, &input, &mut line);
        bench = run(
            bench,
            reading,
            &line[..reading.length.min(1000)],
            &mut times,
            &mut levels,
            &mut states,
            &mut store,
            &mut out,
        );
        if reading.line == Line::NoMore || bench.cause.is_some() || out.is_lost() {
            break;
        }
    }
    let written = out.flush();
    if let Some(cause) = bench.cause {
        let text = &line[..reading.length.min(1000)];
        say_cause(rt.stderr(), cause, reading.number, text);
    }
    let unread = reading.input == Input::Unreadable;
    faults::troubles(rt.stderr(), unread, written);
}
