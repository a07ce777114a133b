// The host's side of the line: the encoder of commands and the reader of bank replies.
#![tactic(auto)]

mod encoder;
mod reader;

pub use encoder::encode;
pub use reader::read_bank;
