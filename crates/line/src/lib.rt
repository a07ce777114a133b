// The line receiver: falling clock edges in, packets out.
//
// A receiver goes in by value and comes back. `Receiver::edge` is for everyone: it refuses what is
// not right and then changes nothing. `Receiver::step` is for callers that have checked receiver
// and edge themselves. Definitions: specs/Line.antt for an edge, specs/Wire.antt for many,
// specs/Clock.antt for the clock by times alone.
// Laws: proofs/Laws.antt (possible stays possible, the pause), proofs/Clock.antt (the clock is kept), proofs/Edges.antt (when an edge is
// refused, and right edges in turn), proofs/Wire.antt (the wire law), proofs/Told.antt (no two answers are
// said alike).
#![tactic(auto)]

mod packet;
mod receiver;

pub use packet::{Packet, packet_length};
pub use receiver::{Heard, Receiver};
