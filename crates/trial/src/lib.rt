// A module on trial: what a scenario has come to (bench.rt), and the edges of a piece, gathered in
// blocks and fed (pieces.rt). For the program `replay`; it is proved to end and to do nothing
// undefined, and docs/LOOSER.md says why its functions promise no more.
#![tactic(auto)]

mod bench;
mod pieces;

pub use bench::{Bench, Cause, Part};
pub use pieces::{due_before, feed_due, gather};
