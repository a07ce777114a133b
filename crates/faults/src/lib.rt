// What is wrong with a scenario, said on standard error: the number of the line, what was found and what
// was expected. For the program `replay`; it is proved to end and to do nothing undefined, and
// docs/LOOSER.md says why its functions promise no more. docs/REPLAY.md has the causes as a table.
#![tactic(auto)]

mod found;
mod report;

pub use report::{after_an_edge, not_a_statement, too_long, troubles};
