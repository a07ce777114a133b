// The module: what edges and an application do to a board.
//
// The record goes in by value and comes back; states, store, sheets and reply room are lent. No
// entry asks anything of its caller: `feed`, `restart`, `post`, `set_status` and `set_wait` refuse
// what is not right, by the table of document 01. Definitions: specs/Edge.antt (one edge), Feed.antt
// (a call), Whole.antt (a whole recording), Application.antt; Listen.antt, what the receiver alone
// makes of edges, is how a feed works and no part of what it promises (proofs/Following.antt).
#![tactic(auto)]

mod application;
mod feeding;
mod listen;

pub use application::{post, restart, set_status, set_wait};
pub use board::{Half, Module};
pub use cells::Sheets;
pub use feeding::{Answer, Fed, feed};
