// The answer to 0x0F: a CV and the next one, read by their owner.
ghost use Rattle.std.specs.Prelude.{◌≡◌, true};
ghost use Rattle.store.specs.Sheet.{sheets_of, lengths_hold, sheets_hold};
ghost use Rattle.bidi.specs.Read.{cell_half, own_half, short_as, read_cv_of};

use crate::headers::{CV_ERROR, CV_VALUE};
use cells::{Settings, Sheets};

// What stands behind `CV_ERROR`: the CV is not supported, or its number is none of this module's.
const NOT_SUPPORTED: u8 = 0x01;

const NOT_OWN: u8 = 0x02;

// The half for what an own CV reads as.
fn cell_half(cell: Option<u8>) -> [u8; 2]
    ensures { result ≡ cell_half cell }
{
    match cell {
        Some(value) => [CV_VALUE, value],
        None => [CV_ERROR, NOT_SUPPORTED],
    }
}

// The half for a CV that may not be own.
fn own_half(cell: Option<Option<u8>>) -> [u8; 2]
    ensures { result ≡ own_half cell }
{
    match cell {
        Some(own) => cell_half(own),
        None => [CV_ERROR, NOT_OWN],
    }
}

// Answers a 0x0F read of a CV with that CV and the next, in the selected bank. Only the owner
// answers: a common CV, and any other that isn't own, gets no acknowledgement.
pub fn read_cv<'a>(
    settings: Settings,
    cv: u16,
    store: &'a [u8],
    sheets: Sheets<'_, 'a>,
) -> Option<[u8; 4]>
    requires fixed_value { lengths_hold store.now (sheets_of sheets.sizes.now sheets.fixed.now) ≡ true }
    requires fixed_value_2 { sheets_hold (sheets_of sheets.sizes.now sheets.fixed.now) ≡ true }
    ensures { short_as result ≡ read_cv_of settings cv store.now (sheets_of sheets.entry.sizes.now sheets.entry.fixed.now) }
{
    let own = settings.own_cell(cv, store, sheets)?;
    let first = cell_half(own);
    let second = own_half(settings.own_cell(cv + 1, store, sheets));
    // Two arrays have no sum that is an array: their bytes are named.
    Some([first[0], first[1], second[0], second[1]])
}
