// Vectors that are run, and compared with the file stdout, which was made from the published values
// and by hand from the paper: checksums, bank replies that are right, damaged or too long, edges
// on a receiver, and commands in pairs. (The long checksums there are another program's, bit by bit.)
#![tactic(auto)]

ghost use Rattle.std.specs.Prelude.{◌<◌};

use command::{Command, Halves};
use line::{Heard, Packet, Receiver};
use std::fmt::Display;

// A piece of text on standard output; each that cannot be written is said on standard error, by the program's
// name: so each program has its own.
fn put<D: Display + Drop>(rt: &HostRuntime, piece: D) {
    if rt.print(piece).is_err() {
        let _ = rt.eprintln("vectors: standard output could not be written");
    }
}

fn checksum_line(rt: &HostRuntime, name: &str, bytes: &[u8]) {
    let sum = crc::checksum(bytes);
    put(rt, "crc ");
    put(rt, name);
    put(rt, " ");
    put(rt, format_args!("{sum:02X}"));
    put(rt, "\n");
}

// The four published checksums.
fn checksums(rt: &HostRuntime) {
    checksum_line(rt, "\"123456789\"", b"123456789");
    let seven = [0x02u8, 0x1C, 0xB8, 0x01, 0x00, 0x00, 0x00];
    checksum_line(rt, "02 1C B8 01 00 00 00", &seven);
    checksum_line(rt, "01", &[1]);
    checksum_line(rt, "-", b"");
}

// Around the length from which on lanes are summed side by side; every lane has bytes of its own.
fn long_checksums(rt: &HostRuntime) {
    let mut lanes = [0x5Au8; 508];
    lanes[126] = 1;
    lanes[127] = 2;
    lanes[254] = 3;
    lanes[381] = 4;
    lanes[507] = 5;
    checksum_line(rt, "507 bytes, no lanes", &lanes[..507]);
    checksum_line(rt, "508 bytes, four lanes of 127", &lanes);
    let mut block = [0x5Au8; 4096];
    block[31] = 1;
    block[32] = 2;
    block[1047] = 3;
    block[1048] = 4;
    block[2064] = 5;
    block[3080] = 6;
    block[4095] = 7;
    checksum_line(rt, "4096 bytes, four lanes of 1016 behind 32", &block);
}

// What the reader says of a reply: the number of cells, or the refusal.
fn reply_line(rt: &HostRuntime, name: &str, reply: &[u8]) {
    let mut room = [0u8; 40];
    let answer = host::read_bank(reply, &mut room);
    put(rt, name);
    match answer {
        Ok(n) => {
            put(rt, " cells ");
            put(rt, n);
        }
        Err(why) => {
            put(rt, " refused ");
            put(rt, why.number());
        }
    }
    put(rt, "\n");
}

// A reply of twelve bytes with one of them changed: the next byte, and 0 after 255.
fn changed_line(rt: &HostRuntime, reply: [u8; 12], at: usize)
    requires { at < 12 }
{
    let mut bytes = reply;
    bytes[at] = bytes[at].wrapping_add(1);
    reply_line(rt, "three cells, a byte changed:", &bytes);
}

// The reply of the cells 11 22 33, made by hand, then with each of its bytes changed in turn.
fn damaged(rt: &HostRuntime) {
    let reply = [
        0x8Fu8, 0x11, 0x8F, 0x22, 0x8F, 0x33, 0x8E, 0x01, 0x8F, 0x4A, 0x8F, 0x00,
    ];
    reply_line(rt, "three cells, right:", &reply);
    for at in 0..12 {
        changed_line(rt, reply, at);
    }
}

// Headers are outside the checksum: the end group of one cell 01 becomes that of none.
fn changed_header(rt: &HostRuntime) {
    reply_line(
        rt,
        "one cell 01, right:",
        b"\x8F\x01\x8E\x01\x8F\x9A\x8F\x00",
    );
    reply_line(
        rt,
        "one cell 01, its header 8E:",
        b"\x8E\x01\x8E\x01\x8F\x9A\x8F\x00",
    );
}

// 8F 00 again and again: 20 groups of cells and the checksum's are a full bank; with one group more
// the 21st is the checksum, and something follows it.
fn too_long(rt: &HostRuntime) {
    let groups = [[0x8Fu8, 0x00]; 44];
    let bytes = groups.as_flattened();
    reply_line(rt, "20 cell groups, 21 in all:", &bytes[..84]);
    reply_line(rt, "21 cell groups, 22 in all:", &bytes[..88]);
    reply_line(rt, "nothing:", b"");
}

// A space and a number.
fn number<D: Display + Drop>(rt: &HostRuntime, n: D) {
    put(rt, " ");
    put(rt, n);
}

// The length of a packet, and all three of its bytes; where there is none, four zeros.
fn packet_words(rt: &HostRuntime, packet: Option<Packet>) {
    let packet = packet.unwrap_or(Packet::none());
    number(rt, packet.length);
    for byte in packet.bytes {
        number(rt, byte);
    }
}

// One edge on a receiver: the refusal, the packet, and the receiver after it; where it is refused, as it was.
fn edge_line(rt: &HostRuntime, before: Receiver, time: u64, level: u8) {
    put(rt, "edge");
    match before.edge(time, level) {
        Ok(heard) => {
            number(rt, 0);
            heard_words(rt, heard);
        }
        Err(why) => {
            number(rt, why.number());
            heard_words(
                rt,
                Heard {
                    receiver: before,
                    packet: None,
                },
            );
        }
    }
    put(rt, "\n");
}

// What was heard: the packet, and the receiver.
fn heard_words(rt: &HostRuntime, heard: Heard) {
    let receiver = heard.receiver;
    put(rt, ", packet");
    packet_words(rt, heard.packet);
    put(rt, ", receiver");
    number(rt, receiver.last);
    number(rt, receiver.bits);
    number(rt, receiver.count);
    number(rt, receiver.first);
    number(rt, receiver.second);
    number(rt, receiver.held);
    number(rt, receiver.start);
    number(rt, receiver.started);
}

// A receiver whose last edge was at 600, and its clock's start at 0.
fn holding(bits: u8, count: u8, first: u8, second: u8, held: u8) -> Receiver {
    Receiver {
        last: 600,
        start: 0,
        started: 1,
        bits,
        count,
        first,
        second,
        held,
    }
}

// The same with this clock, and so many bits and so many bytes, all 0.
fn with_clock(start: u64, started: u8, count: u8, held: u8) -> Receiver {
    Receiver {
        start,
        started,
        ..holding(0, count, 0, 0, held)
    }
}

// Edges that are taken: the last that goes on and the first that is a pause, a bit, a byte, and a packet
// of either length; by C-02 the first and the last of the thirteen others that have three bytes; by C-03
// the clock by its mark, whatever that is, and an edge that starts it, whatever stands in the start.
fn taken(rt: &HostRuntime) {
    edge_line(rt, Receiver::new(), 0, 1);
    edge_line(rt, holding(85, 7, 0, 0, 0), 7999, 1);
    edge_line(rt, holding(85, 7, 0, 0, 0), 8000, 1);
    edge_line(rt, holding(5, 3, 36, 0, 1), 600, 1);
    edge_line(rt, holding(5, 7, 36, 0, 1), 700, 1);
    edge_line(rt, holding(0, 7, 127, 0, 1), 700, 1);
    edge_line(rt, holding(3, 7, 127, 128, 2), 700, 0);
    edge_line(rt, holding(3, 7, 123, 128, 2), 8000, 1);
    edge_line(rt, holding(3, 7, 112, 128, 2), 700, 0);
    edge_line(rt, holding(5, 7, 126, 0, 1), 700, 1);
    edge_line(rt, with_clock(600, 255, 2, 1), 8599, 1);
    edge_line(rt, with_clock(600, 1, 2, 1), 8600, 1);
    edge_line(rt, with_clock(601, 0, 0, 0), 14000, 1);
}

// Edges that are refused: by each clause of 12 that a receiver can break, by 2, by 3, and in this order;
// by C-03 for a start after the last edge, and for a bit and a byte held without a start.
fn refused(rt: &HostRuntime) {
    edge_line(rt, holding(0, 8, 0, 0, 0), 700, 1);
    edge_line(rt, holding(8, 3, 0, 0, 0), 700, 1);
    edge_line(rt, holding(0, 0, 1, 0, 0), 700, 1);
    edge_line(rt, holding(0, 0, 0, 1, 0), 700, 1);
    edge_line(rt, holding(0, 0, 119, 1, 1), 700, 1);
    edge_line(rt, holding(0, 0, 36, 1, 2), 700, 1);
    edge_line(rt, holding(0, 0, 111, 1, 2), 700, 1);
    edge_line(rt, holding(0, 0, 128, 1, 2), 700, 1);
    edge_line(rt, holding(0, 0, 127, 1, 3), 700, 1);
    edge_line(rt, holding(0, 0, 1, 0, 0), 599, 2);
    edge_line(rt, holding(0, 0, 0, 0, 0), 599, 2);
    edge_line(rt, holding(0, 0, 0, 0, 0), 599, 1);
    edge_line(rt, with_clock(601, 1, 0, 0), 700, 1);
    edge_line(rt, with_clock(0, 0, 1, 0), 700, 1);
    edge_line(rt, with_clock(0, 0, 0, 1), 700, 1);
}

// A command on the line: the refusal, and the packet.
fn encoded_words(rt: &HostRuntime, command: Command) {
    match host::encode(command) {
        Ok(packet) => {
            number(rt, 0);
            packet_words(rt, Some(packet));
        }
        Err(why) => {
            number(rt, why.number());
            packet_words(rt, None);
        }
    }
}

// A pair of commands, with refusal 0: both on the line.
fn pair_line(rt: &HostRuntime, pair: Halves) {
    put(rt, "pair 0");
    encoded_words(rt, pair.low);
    encoded_words(rt, pair.high);
    put(rt, "\n");
}

// The pair of a long state, or the refusal alone.
fn state_line(rt: &HostRuntime, state: u16, on: bool) {
    match Command::long_state(state, on) {
        Ok(pair) => pair_line(rt, pair),
        Err(why) => {
            put(rt, "pair");
            number(rt, why.number());
            put(rt, "\n");
        }
    }
}

// Addresses and long states as pairs, to the last number that there is room for.
fn pairs(rt: &HostRuntime) {
    pair_line(rt, Command::address(4660));
    pair_line(rt, Command::address(65535));
    state_line(rt, 0, true);
    state_line(rt, 128, true);
    state_line(rt, 257, false);
    state_line(rt, 32767, true);
    state_line(rt, 32768, true);
}

fn main(rt: HostRuntime) {
    checksums(&rt);
    long_checksums(&rt);
    damaged(&rt);
    changed_header(&rt);
    too_long(&rt);
    taken(&rt);
    refused(&rt);
    pairs(&rt);
}
