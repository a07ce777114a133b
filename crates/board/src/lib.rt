// A board's record as a whole: what a module keeps between edges, whether it can have come about, and
// the parts of it that a pause and a restart drop.
//
// The record goes by value. `Module::refusal` is the check of record and lent buffers that comes
// before everything else (12, 4, 5); what stands above asks it once a call. Definitions:
// specs/Board.antt.
#![tactic(auto)]

mod record;

pub use record::{Half, Module};
