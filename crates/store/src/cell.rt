// The cells, by bank and offset. A byte of the store is read and written here and nowhere else.
ghost use Rattle.std.specs.Prelude.{◌≡◌, true, ◌<◌, length};
ghost use Rattle.store.specs.Sheet.{sheets_of, lengths_hold, sheets_hold};
ghost use Rattle.store.specs.Store.{cell_place, with_cell, cell_of, used_cells, bank_cells};

use crate::sheet::{BANK_CELLS, FIXED_BANK, Sheets, leading, readable, size_of};

// Where a cell stands in the store.
fn cell_place(bank: u8, offset: u8) -> usize
    ensures { result ≡ cell_place bank offset }
{
    usize::from(bank) * usize::from(BANK_CELLS) + usize::from(offset)
}

// The used cells of a bank, as the part that they are of what is lent: of the fixed sheet for bank 254, of
// the store for any other bank.
pub fn used_cells<'a>(store: &'a [u8], sheets: Sheets<'_, 'a>, bank: u8) -> &'a [u8]
    requires fixed_value { lengths_hold store.now (sheets_of sheets.sizes.now sheets.fixed.now) ≡ true }
    requires fixed_value_2 { sheets_hold (sheets_of sheets.sizes.now sheets.fixed.now) ≡ true }
    ensures { result.now ≡ used_cells store.now (sheets_of sheets.entry.sizes.now sheets.entry.fixed.now) bank }
{
    let size = usize::from(size_of(sheets.sizes, bank));
    if bank == FIXED_BANK {
        return &sheets.fixed[..size];
    }
    let start = cell_place(bank, 0);
    &store[start..start + size]
}

// What a cell reads as: none where it is not readable. Store and fixed sheet have one lifetime here, and
// in all that reads cells through this, as `used_cells` asks.
pub fn read_cell<'a>(store: &'a [u8], sheets: Sheets<'_, 'a>, bank: u8, offset: u8) -> Option<u8>
    requires fixed_value { lengths_hold store.now (sheets_of sheets.sizes.now sheets.fixed.now) ≡ true }
    requires fixed_value_2 { sheets_hold (sheets_of sheets.sizes.now sheets.fixed.now) ≡ true }
    ensures { result ≡ cell_of store.now (sheets_of sheets.entry.sizes.now sheets.entry.fixed.now) bank offset }
{
    if !readable(sheets.sizes, bank, offset) {
        return None;
    }
    let cells = used_cells(store, sheets, bank);
    Some(cells[usize::from(offset)])
}

// The leading readable cells of a bank, as the part of the store that they are: none of bank 254.
pub fn bank_cells<'a>(store: &'a [u8], sheets: Sheets<'_, 'a>, bank: u8) -> &'a [u8]
    requires fixed_value { lengths_hold store.now (sheets_of sheets.sizes.now sheets.fixed.now) ≡ true }
    requires fixed_value_2 { sheets_hold (sheets_of sheets.sizes.now sheets.fixed.now) ≡ true }
    ensures { result.now ≡ bank_cells store.now (sheets_of sheets.entry.sizes.now sheets.entry.fixed.now) bank }
{
    let cells = used_cells(store, sheets, bank);
    let count = usize::from(leading(sheets.sizes, bank));
    &cells[..count]
}

// Writes a cell, and leaves every other as it was. Whether it may be written is the caller's to ask.
pub fn put_cell(store: &mut [u8], bank: u8, offset: u8, value: u8)
    requires { cell_place bank offset < length store.old }
    ensures { store.new ≡ with_cell store.old bank offset value }
{
    let at = cell_place(bank, offset);
    store[at] = value;
}
