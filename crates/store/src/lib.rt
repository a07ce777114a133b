// The cells of a module by bank and offset: which there are, which may be read and written, and
// where a cell's byte stands: in the store, or for bank 254 in the fixed sheet. Store and sheets are lent
// by the caller, who asks `lengths_hold` and `sheets_hold` before anything else.
//
// Nothing above this crate knows where a byte stands: definitions and code go by bank and offset.
// sheet.rt has the sheets, cell.rt the cells.
#![tactic(auto)]

mod cell;
mod sheet;

pub use cell::{bank_cells, put_cell, read_cell, used_cells};
pub use sheet::{Sheets, leading, lengths_hold, readable, sheets_hold, size_of, writable};
