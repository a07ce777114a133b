// What a board answers over BiDi, the bank reply left aside: two statuses, a queue of messages that
// its application posts, the registration, the answers to a 0x01 call and to a 0x0F read.
//
// The record goes in by value and comes back. Definitions: specs/Messages.antt (which messages and
// statuses are legal), specs/Bidi.antt (posts, statuses, calls), specs/Read.antt (the read),
// specs/Actions.antt (posts, statuses and calls in turn). Laws: proofs/Refusals.antt (6, 7, 11),
// proofs/Possible.antt (possible stays possible), proofs/Calls.antt (who answers, registration),
// proofs/Fifo.antt (first in, first out), proofs/Reading.antt (who answers a read).
#![tactic(auto)]

mod headers;
mod legal;
mod queue;
mod read;
mod record;

pub use read::read_cv;
pub use record::{Bidi, Called};
