// For firmware authors: one edge a call, on a receiver that stays in its place. C calls it by
// include/muralintak.h, through the crate `firmware_c`.
//
// A fresh receiver, the pause and the lengths of packets belong to `line::Receiver`. Definitions:
// specs/InPlace.antt, over line's. Theorems: crate `demands`, proofs/Firmware.antt.
#![tactic(auto)]

ghost use Rattle.firmware.specs.InPlace.{in_place, EdgeInPlacePromise};

use line::{Packet, Receiver};

// What an edge gives: refusal 0 and the packet which that edge completed, if any; or a refusal and no
// packet. No packet is length 0 and bytes 0; the third byte of a short one is 0. Laid out as in C, which
// has neither Result nor Option.
#[repr(C)]
#[derive(Clone, Copy)]
pub struct Outcome {
    pub refusal: u8,
    pub packet: Packet,
}

// One edge, for everyone: the receiver is changed in its place. Refuses with 12 a receiver that no
// edges can have left (held bits and bytes, its clock), with 2 a level that is neither 0 nor 1, with
// 3 a time below the last edge's, in this order; the receiver then stays as it was, and there is no
// packet. Its parameters are those that C has.
pub fn muralintak_edge(receiver: &mut Receiver, time: u64, level: u8) -> Outcome
    ensures { EdgeInPlacePromise receiver.old time level (in_place result receiver.new) }
{
    match receiver.edge(time, level) {
        Ok(heard) => {
            *receiver = heard.receiver;
            Outcome {
                refusal: 0,
                packet: heard.packet.unwrap_or(Packet::none()),
            }
        }
        Err(why) => Outcome {
            refusal: u8::from(why),
            packet: Packet::none(),
        },
    }
}
