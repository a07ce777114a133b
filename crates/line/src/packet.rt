// Packets, and how long they are.
ghost use Rattle.std.specs.Prelude.{◌≡◌};
ghost use Rattle.line.specs.Line.{packet_length, no_packet, packet_of2, packet_of3};

use crate::Receiver;

// A packet of two or three bytes. The third byte of a short one is 0. Laid out as in C, so that C can
// hold one: a count beside an array, where Rust alone would have an enum.
#[repr(C)]
#[derive(Clone, Copy)]
pub struct Packet {
    pub length: u8,
    pub bytes: [u8; 3],
}

impl Packet {
    // For C, which has no Option: length 0, and all bytes are 0.
    pub fn none() -> Packet
        ensures { result ≡ no_packet }
    {
        Packet {
            length: 0,
            bytes: [0, 0, 0],
        }
    }

    // One function for each length that there is: over any count of bytes it would allow others too.
    pub fn short(first: u8, second: u8) -> Packet
        ensures { result ≡ packet_of2 first second }
    {
        Packet {
            length: Receiver::SHORT,
            bytes: [first, second, 0],
        }
    }

    pub fn long(first: u8, second: u8, third: u8) -> Packet
        ensures { result ≡ packet_of3 first second third }
    {
        Packet {
            length: Receiver::LONG,
            bytes: [first, second, third],
        }
    }
}

// How many bytes a packet has that begins so.
pub fn packet_length(first: u8) -> u8
    ensures { result ≡ packet_length first }
{
    match first {
        0x70..=0x7F => Receiver::LONG,
        _ => Receiver::SHORT,
    }
}
