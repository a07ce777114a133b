// The receiver of a module: what it holds between edges, and one edge.
ghost use Rattle.std.specs.Prelude.{◌≡◌, true, ◌<◌, ◌≤◌, Some, None};
ghost use Rattle.refusals.specs.Numbers.{refusal_in};
ghost use Rattle.line.specs.Line.{fresh_receiver, with_bits, holding, start_for, is_pause, paused_of, byte_of, bit_of, step_of};
ghost use Rattle.line.specs.Line.{bits_possible, bytes_possible, clock_possible, receiver_possible, edge_refusal, EdgePromise};
ghost use Rattle.line.specs.Line.{heard_told, edge_as, WholePacket, WholeAnswer};

use crate::{Packet, packet_length};
use refusals::Refusal;

// What a receiver holds: the time of its last edge (0 before any); the time at which its clock
// started, which means nothing while the mark behind it is 0; the bits of an unfinished byte with the
// first in bit 0, their count; the bytes of an unfinished packet, their count. Of bits and bytes those
// that are not in use are 0. Laid out as in C, so that C can hold one: a mark and counts beside the
// values, where Rust alone would have an Option and slices. C may hand in any values, so that edges can
// have left them is no part of the type but a test, `possible`.
#[repr(C)]
#[derive(Clone, Copy)]
pub struct Receiver {
    pub last: u64,
    pub start: u64,
    pub started: u8,
    pub bits: u8,
    pub count: u8,
    pub first: u8,
    pub second: u8,
    pub held: u8,
}

// The receiver after an edge, and the packet which that edge completed, if any.
#[derive(Clone, Copy)]
pub struct Heard {
    pub receiver: Receiver,
    pub packet: Option<Packet>,
}

fn bits_possible(bits: u8, count: u8) -> bool
    ensures { result ≡ bits_possible bits count }
{
    count <= 7 && bits < bits::weight(count)
}

#[tactic(auto, unfolding(crate::specs::Line::bytes_possible))]
fn bytes_possible(first: u8, second: u8, held: u8) -> bool
    ensures { result ≡ bytes_possible first second held }
{
    match held {
        0 => first == 0 && second == 0,
        1 => second == 0,
        2 => packet_length(first) == Receiver::LONG,
        _ => false,
    }
}

// Nothing is held before the clock starts, and it has not started after the last edge.
fn clock_possible(receiver: Receiver) -> bool
    ensures { result ≡ clock_possible receiver }
{
    if receiver.started == 0 {
        return receiver.count == 0 && receiver.held == 0;
    }
    receiver.start <= receiver.last
}

fn nothing_completed(receiver: Receiver) -> Heard
    ensures { result ≡ record { receiver = receiver; packet = None } }
{
    Heard {
        receiver,
        packet: None,
    }
}

fn completed(receiver: Receiver, packet: Packet) -> Heard
    ensures { result ≡ record { receiver = receiver; packet = Some packet } }
{
    Heard {
        receiver,
        packet: Some(packet),
    }
}

impl Receiver {
    // Microseconds after the clock's start from which on an edge is a pause.
    pub const PAUSE: u64 = 8000;
    // The two lengths of packets, in bytes.
    pub const SHORT: u8 = 2;

    pub const LONG: u8 = 3;

    // A fresh receiver: nothing held, no edge yet.
    pub fn new() -> Receiver
        ensures { result ≡ fresh_receiver }
    {
        Receiver {
            last: 0,
            start: 0,
            started: 0,
            bits: 0,
            count: 0,
            first: 0,
            second: 0,
            held: 0,
        }
    }

    // Whether edges can have left this receiver: its part of refusal 12.
    #[tactic(auto, unfolding(crate::specs::Line::receiver_possible))]
    pub fn possible(self) -> bool
        ensures { result ≡ receiver_possible self }
    {
        bits_possible(self.bits, self.count)
            && bytes_possible(self.first, self.second, self.held)
            && clock_possible(self)
    }

    fn with_bits(self, bits: u8, count: u8) -> Receiver
        ensures { result ≡ with_bits self bits count }
    {
        Receiver {
            bits,
            count,
            ..self
        }
    }

    // The last edge completed a byte: the clock starts there.
    fn with_bytes(self, first: u8, second: u8, held: u8) -> Receiver
        ensures { result ≡ holding self first second held }
    {
        Receiver {
            start: self.last,
            started: 1,
            first,
            second,
            held,
            ..self
        }
    }

    // The clock's start, as an edge at this time finds it: where there is none, it is this edge.
    fn start_for(self, time: u64) -> u64
        ensures { result ≡ start_for self time }
    {
        if self.started == 0 {
            return time;
        }
        self.start
    }

    // Whether an edge at this time is a pause.
    pub fn is_pause(self, time: u64) -> bool
        requires self_value { receiver_possible self ≡ true }
        requires last_le_time { self.last ≤ time }
        ensures { result ≡ is_pause self time }
    {
        Receiver::PAUSE <= time - self.start_for(time)
    }

    // The time of an edge is noted; a pause drops what is held, and the clock starts anew.
    fn after_gap(self, time: u64) -> Receiver
        requires self_value { receiver_possible self ≡ true }
        requires last_le_time { self.last ≤ time }
        ensures { result ≡ paused_of self time }
    {
        if self.is_pause(time) {
            return Receiver {
                last: time,
                start: time,
                started: 1,
                ..Receiver::new()
            };
        }
        Receiver {
            last: time,
            start: self.start_for(time),
            started: 1,
            ..self
        }
    }

    // A whole byte joins those held; the packet is complete with as many as its first byte asks for.
    #[tactic(auto, unfolding(crate::specs::Line::byte_of))]
    pub fn with_byte(self, byte: u8) -> Heard
        ensures heard { heard_told result ≡ byte_of self byte }
        ensures whole { WholePacket result.packet }
    {
        let first = self.first;
        match self.held {
            0 => nothing_completed(self.with_bytes(byte, 0, 1)),
            1 if packet_length(first) == Receiver::LONG => {
                nothing_completed(self.with_bytes(first, byte, 2))
            }
            1 => completed(self.with_bytes(0, 0, 0), Packet::short(first, byte)),
            _ => completed(
                self.with_bytes(0, 0, 0),
                Packet::long(first, self.second, byte),
            ),
        }
    }

    // A bit joins those held, above them: bit 0 comes first. For callers that have seen to pauses.
    fn with_bit(self, level: u8) -> Heard
        requires self_value { receiver_possible self ≡ true }
        requires level_bound { level < 2 }
        ensures heard { heard_told result ≡ bit_of self level }
        ensures whole { WholePacket result.packet }
    {
        let bits = self.bits + level * bits::weight(self.count);
        if self.count == 7 {
            return self.with_bits(0, 0).with_byte(bits);
        }
        nothing_completed(self.with_bits(bits, self.count + 1))
    }

    // One edge, for a caller that has seen to it that receiver, level and time are right.
    pub fn step(self, time: u64, level: u8) -> Heard
        requires self_value { receiver_possible self ≡ true }
        requires level_bound { level < 2 }
        requires last_le_time { self.last ≤ time }
        ensures heard { heard_told result ≡ step_of self time level }
        ensures whole { WholePacket result.packet }
    {
        self.after_gap(time).with_bit(level)
    }

    // The first of the refusals 2 and 3 that an edge gives cause for. Its time and level stay two
    // arguments here and below, as C and a recording's two lists have them; a level stays a byte, since 2 is
    // for the others than 0 and 1.
    pub fn edge_refusal(self, time: u64, level: u8) -> Result<(), Refusal>
        ensures { refusal_in result ≡ edge_refusal self time level }
    {
        if 1 < level {
            return Err(Refusal::Level);
        }
        if time < self.last {
            return Err(Refusal::Time);
        }
        Ok(())
    }

    // One edge, for everyone. Refuses with 12 a receiver that no edges can have left, with 2 a
    // level that is neither 0 nor 1, with 3 a time below the last edge's, in this order; the
    // receiver then stays as it was, with no packet.
    pub fn edge(self, time: u64, level: u8) -> Result<Heard, Refusal>
        ensures answer { EdgePromise self time level (edge_as self result) }
        ensures whole { WholeAnswer result }
    {
        if !self.possible() {
            return Err(Refusal::Impossible);
        }
        self.edge_refusal(time, level)?;
        Ok(self.step(time, level))
    }
}
