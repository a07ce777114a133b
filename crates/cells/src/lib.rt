// The CVs of a module: which are its own, what each reads as, and which bytes each takes from the
// line. The cells behind them are those of the crate `store`, whose face is shown again here.
//
// role.rt has what a CV is to a module and the right to write it, settings.rt the settings with
// verify and write. Store and sheets are lent by the caller, who has asked `lengths_hold` and
// `sheets_hold`.
#![tactic(auto)]

mod role;
mod settings;

pub use role::{Role, may_write, role_of};
pub use settings::Settings;
pub use store::{Sheets, bank_cells, leading, lengths_hold, read_cell, sheets_hold, size_of};
