// Edges taken by the receiver alone, so that the loop over edges does not touch the rest of the
// record: a feed looks at that once a packet.
ghost use Rattle.std.specs.Prelude.{◌≡◌, true, false, ◌≤◌, length, drop};
ghost use Rattle.line.specs.Line.{receiver_possible};
ghost use Rattle.line.specs.Wire.{edges_of};
ghost use Rattle.module.specs.Listen.{listened_as, WholeEnd, listen_of, after_listening};

use board::Module;
use line::{Packet, Receiver};
use refusals::Refusal;

// The receiver after some edges, whether one of them was a pause, how many are taken by now, and where
// they end: at the packet that the last of them completed; at none, where there are no more; or before a
// bad one, with its refusal, 2 or 3.
#[derive(Clone, Copy)]
pub struct Listened {
    pub receiver: Receiver,
    pub paused: bool,
    pub taken: usize,
    pub end: Result<Option<Packet>, Refusal>,
}

// Takes edges from the one at `from` on, until one completes a packet, one is bad, or there are no
// more.
pub fn listen(before: Receiver, times: &[u64], levels: &[u8], from: usize) -> Listened
    requires before_value { receiver_possible before ≡ true }
    requires times_len { length times.now ≡ length levels.now }
    requires from_in_bounds { from ≤ length times.now }
    ensures heard { listened_as result ≡ listen_of before false from (drop from (edges_of times.now levels.now)) }
    ensures whole { WholeEnd result.end }
{
    let mut receiver = before;
    let mut paused = false;
    // One index, which the answer gives, for two lists: a zip of both, counted on from there, is no plainer.
    for i in from..times.len() {
        let time = times[i];
        let level = levels[i];
        if let Err(refusal) = receiver.edge_refusal(time, level) {
            return Listened {
                receiver,
                paused,
                taken: i,
                end: Err(refusal),
            };
        }
        paused |= receiver.is_pause(time);
        let heard = receiver.step(time, level);
        receiver = heard.receiver;
        if let Some(packet) = heard.packet {
            return Listened {
                receiver,
                paused,
                taken: i + 1,
                end: Ok(Some(packet)),
            };
        }
    }
    Listened {
        receiver,
        paused,
        taken: times.len(),
        end: Ok(None),
    }
}

// The record with its receiver back. A pause among the edges taken dropped a held half.
pub fn after_listening(kept: Module, receiver: Receiver, paused: bool) -> Module
    ensures { result ≡ after_listening kept receiver paused }
{
    if paused {
        return kept.without_half().with_receiver(receiver);
    }
    kept.with_receiver(receiver)
}
