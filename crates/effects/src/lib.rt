// What a completed packet does to a board, and what it answers: the tables of document 01, with C-12's rows.
//
// `packet` is the effect of any packet. It asks that record and buffers were checked
// (`Module::refusal` refused nothing), and leaves them so. Definitions: specs/Effects.antt, a line for each
// command. Any record and any lengths can be handed in, so that each function asks this by itself.
#![tactic(auto)]

mod tables;

pub use reactions::Reaction;
pub use tables::packet;
