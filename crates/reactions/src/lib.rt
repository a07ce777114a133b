// What a completed command can do to a board and what it answers, kind by kind.
//
// reaction.rt has the kinds that need no room for a reply, replies.rt those that are answered with
// bytes. Which command is of which kind stands in the crate `effects`. Definitions:
// specs/Reactions.antt.
#![tactic(auto)]

mod reaction;
mod replies;

pub use reaction::{
    Reaction, address_high, held, long_high, nothing, position_low, short_state, told, verified,
    written,
};
pub use replies::{bank_read, called, cv_read};
