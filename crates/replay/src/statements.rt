// What each statement does, and what it writes.
ghost use Rattle.std.specs.Prelude.{length};
ghost use Rattle.host.specs.ReadBank.{ReadBankPromise as Reads, read_as};
ghost use Rattle.scenario.specs.Statements.{bytes_read};

use board::Module;
use command::Command;
use counts::Counts;
use panel::{Output, hold, set, set_queue, show};
use reading::{Line, Reading};
use refusals::Refusal;
use scenario::{Buffer, Statement};
use trial::{Bench, Cause, due_before, feed_due, gather};

// Sizes and cells are set before the first edge only.
fn size(bench: Bench, bank: u8, n: u8) -> Bench {
    if bench.has_edges() {
        return bench.stopped(Cause::AfterAnEdge);
    }
    let mut after = bench;
    after.sheet[usize::from(bank)] = n;
    after
}

// Puts a byte into the fixed sheet, lent or not.
fn fixed_byte(bench: Bench, offset: u8, value: u8) -> Bench {
    let mut after = bench;
    let at = usize::from(offset);
    if at < 40 {
        after.fixed[at] = value;
    }
    after
}

fn lend(bench: Bench, which: Buffer, n: u16) -> Bench {
    let mut after = bench;
    match which {
        Buffer::Store => after.store_length = usize::from(n),
        Buffer::Sheet => after.sheet_length = usize::from(n),
        Buffer::States => after.states_length = usize::from(n),
        Buffer::Room => after.room_length = usize::from(n),
        Buffer::Fixed => after.fixed_length = usize::from(n),
    }
    after
}

fn lend_unevenly(bench: Bench) -> Bench {
    let mut after = bench;
    after.uneven = true;
    after
}

fn wrong(bench: Bench, line: Line) -> Bench {
    bench.stopped(match line {
        Line::TooLong => Cause::TooLong,
        _ => Cause::NotAStatement,
    })
}

// The statements that write nothing and touch no lent buffer.
fn change(bench: Bench, statement: Statement, line: Line) -> Bench {
    let kept = bench.kept;
    match statement {
        Statement::Wrong => wrong(bench, line),
        Statement::Size(bank, n) => size(bench, bank, n),
        Statement::FixedByte(offset, value) => fixed_byte(bench, offset, value),
        Statement::Set(field, value) => bench.with_record(set(kept, field, value)),
        Statement::Hold(half) => bench.with_record(hold(kept, half)),
        Statement::Locate(position) => bench.with_record(kept.with_position(position)),
        Statement::Queue(place, value) => bench.with_record(set_queue(kept, place, value)),
        Statement::Length(which, n) => lend(bench, which, n),
        Statement::Uneven => lend_unevenly(bench),
        _ => bench,
    }
}

fn put_refusal(word: &str, refusal: Refusal, out: &mut Output) {
    out.put_row(word, &[u64::from(refusal.number())]);
}

// What the application asked for is done, which is written as 0, or refused.
fn asked(bench: Bench, word: &str, answer: Result<Module, Refusal>, out: &mut Output) -> Bench {
    match answer {
        Ok(kept) => {
            out.put_row(word, &[0]);
            bench.with_record(kept)
        }
        Err(refusal) => {
            put_refusal(word, refusal, out);
            bench
        }
    }
}

// A packet, or why there is none.
fn encode(command: Command, out: &mut Output) {
    match host::encode(command) {
        Ok(packet) => {
            out.put_words("encode", &[0]);
            out.put_bytes(&packet.bytes[..usize::from(packet.length).min(3)]);
        }
        Err(refusal) => put_refusal("encode", refusal, out),
    }
}

// What the reader says of the bytes of a `read` line, as many as there is room for.
fn read_line(line: &[u8], bytes: &mut [u8], cells: &mut [u8]) -> Result<usize, Refusal>
    ensures { Reads (bytes_read line.now (length bytes.old)) cells.old (read_as result) cells.new }
{
    scenario::read_bytes(line, bytes);
    host::read_bank(bytes, cells)
}

// What a `read` line of n bytes gives in a room of d bytes.
fn read(line: &[u8], n: usize, d: usize, out: &mut Output) {
    let mut bytes = [0u8; 300];
    let mut cells = [0u8; 200];
    match read_line(line, &mut bytes[..n.min(300)], &mut cells[..d.min(200)]) {
        Ok(count) => {
            out.put_words("read", &[0, count as u64]);
            out.put_bytes(&cells[..count.min(200)]);
        }
        Err(refusal) => put_refusal("read", refusal, out),
    }
}

// How many states and functions are on, or why that is not told.
fn put_counts(word: &str, answer: Result<Counts, Refusal>, out: &mut Output) {
    match answer {
        Ok(on) => out.put_row(word, &[0, u64::from(on.states), u64::from(on.functions)]),
        Err(refusal) => put_refusal(word, refusal, out),
    }
}

// The statements by which an application asks.
fn request(bench: Bench, statement: Statement, out: &mut Output) -> Bench {
    let kept = bench.kept;
    match statement {
        Statement::Post(a, b, c, d) => {
            asked(bench, "post", module::post(kept, [a, b, c, d]), out)
        }
        Statement::Status(number, value) => {
            asked(
                bench,
                "status",
                module::set_status(kept, number, value),
                out,
            )
        }
        Statement::Wait(on) => asked(bench, "wait", module::set_wait(kept, on), out),
        _ => bench,
    }
}

// The statements that only write.
fn answer(bench: Bench, statement: Statement, line: &[u8], out: &mut Output) {
    match statement {
        Statement::Encode(command) => encode(command, out),
        Statement::Read(n) => read(line, n, bench.room_length, out),
        Statement::Counts => put_counts("counts", counts::shown_counts(bench.kept), out),
        _ => {}
    }
}

// A restart with the states as long as they are lent.
fn restart(bench: Bench, states: &mut [u8]) -> Result<Module, Refusal> {
    let n = bench.states_length.min(states.len());
    module::restart(bench.kept, &mut states[..n])
}

// A check with the states as long as they are lent.
fn check(bench: Bench, states: &[u8]) -> Result<Counts, Refusal> {
    let n = bench.states_length.min(states.len());
    counts::checked_counts(bench.kept, &states[..n])
}

// Puts a byte into the states, lent or not.
fn state_byte(place: u16, value: u8, states: &mut [u8; 4200]) {
    let at = usize::from(place);
    if at < 4096 {
        states[at] = value;
    }
}

fn cell(bench: Bench, bank: u8, offset: u8, value: u8, store: &mut [u8; 10300]) -> Bench {
    if bench.has_edges() {
        return bench.stopped(Cause::AfterAnEdge);
    }
    let at = usize::from(bank) * 40 + usize::from(offset);
    if at < 10240 {
        store[at] = value;
    }
    bench
}

// The view of a bank with store and sheets as long as they are lent: what its check says, how many bytes
// it has, and the bytes.
fn put_view(bench: Bench, bank: u8, store: &[u8], out: &mut Output) {
    let lent = &store[..bench.store_length.min(store.len())];
    let sheets = bench.sheets();
    let number = match view::view_refusal(lent, sheets) {
        Ok(()) => 0,
        Err(refusal) => refusal.number(),
    };
    let part = view::bank_view(lent, sheets, bank);
    out.put_words("view", &[u64::from(number), part.len() as u64]);
    out.put_bytes(part);
}

// The statements that touch or show a lent buffer.
fn touch(
    bench: Bench,
    statement: Statement,
    states: &mut [u8; 4200],
    store: &mut [u8; 10300],
    out: &mut Output,
) -> Bench {
    match statement {
        Statement::Restart => return asked(bench, "restart", restart(bench, states), out),
        Statement::Cell(bank, offset, value) => return cell(bench, bank, offset, value, store),
        Statement::Check => put_counts("check", check(bench, states), out),
        Statement::StateByte(place, value) => state_byte(place, value, states),
        Statement::View(bank) => put_view(bench, bank, store, out),
        Statement::Show => show(&bench.kept, states, store, out),
        _ => {}
    }
    bench
}

// What has been read says nothing until its line is whole.
fn said(reading: Reading, line: &[u8]) -> Statement {
    match reading.line {
        Line::Part | Line::NoMore => Statement::Blank,
        Line::Whole => scenario::statement(line),
        Line::TooLong => Statement::Wrong,
    }
}

// Runs what has been read: feeds what is due before it, then does what it says.
pub fn run(
    bench: Bench,
    reading: Reading,
    line: &[u8],
    times: &mut [u64; 3000],
    levels: &mut [u8; 3000],
    states: &mut [u8; 4200],
    store: &mut [u8; 10300],
    out: &mut Output,
) -> Bench {
    let statement = said(reading, line);
    let due = due_before(bench, statement, reading.line == Line::NoMore);
    let fed = feed_due(due, times, levels, states, store, out);
    let gathered = gather(fed, statement, line, times, levels);
    let changed = change(gathered, statement, reading.line);
    answer(changed, statement, line, out);
    let asked = request(changed, statement, out);
    touch(asked, statement, states, store, out)
}
