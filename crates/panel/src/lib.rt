// The record as a scenario sees it: its fields set one by one (fields.rt, definitions in specs/Fields.antt) and
// shown as text (shown.rt), and the buffer through which text goes out (output.rt). For the program
// `replay`; what writes text is proved to end and to do nothing undefined, and docs/LOOSER.md says why
// it promises no more.
#![tactic(auto)]

mod fields;
mod output;
mod shown;

pub use fields::{hold, set, set_queue};
pub use output::Output;
pub use shown::show;
