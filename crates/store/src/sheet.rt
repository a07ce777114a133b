// The lent sheets: the size sheet, 256 bytes, has the number of cells used in each bank; the fixed sheet,
// 40 bytes, is bank 254.
ghost use Rattle.std.specs.Prelude.{◌≡◌, true};
ghost use Rattle.std.specs.List.{list_all};
ghost use Rattle.store.specs.Sheet.{sheets_of, sizes_long, fixed_long, lengths_hold, size_holds, sizes_hold, sheets_hold};
ghost use Rattle.store.specs.Sheet.{size_of, readable, writable, leading_of};

// The store's length: 256 banks of 40 cells.
const STORE_BYTES: usize = 10240;

// The size sheet's length: a size for each bank.
const BANKS: usize = 256;

// The most cells that a bank has.
pub const BANK_CELLS: u8 = 40;

// "banks 0 and 1 at least 2": the banks up to this one begin with so many cells of labels, which aren't
// writable.
const LABEL_LAST: u8 = 1;

const LABEL_CELLS: u8 = 2;

// "banks 251..253 are 0"
const RESERVED_FIRST: u8 = 251;

const RESERVED_LAST: u8 = 253;

// "bank 254 is 2": nothing in it is writable, and its first cell isn't readable.
pub const FIXED_BANK: u8 = 254;

const FIXED_CELLS: u8 = 2;

// The fixed sheet's length, and what its byte 1 is: the SUSI version, 1.1.
const FIXED_BYTES: usize = 40;

const SUSI_VERSION: u8 = 11;

// The lent sheets. Nothing is asked of them here: each function says what it asks, and `lengths_hold` and
// `sheets_hold` tell whether it is so.
#[derive(Clone, Copy)]
pub struct Sheets<'s, 'f> {
    pub sizes: &'s [u8],
    pub fixed: &'f [u8],
}

// Whether store and sheets have their lengths: what refusal 4 asks of them.
pub fn lengths_hold(store: &[u8], sheets: Sheets<'_, '_>) -> bool
    ensures { result ≡ lengths_hold store.now (sheets_of sheets.entry.sizes.now sheets.entry.fixed.now) }
{
    store.len() == STORE_BYTES && sheets.sizes.len() == BANKS && sheets.fixed.len() == FIXED_BYTES
}

// Whether a bank may have this size.
#[tactic(auto, unfolding(crate::specs::Sheet::size_holds))]
fn size_holds(bank: u8, size: u8) -> bool
    ensures { result ≡ size_holds bank size }
{
    match bank {
        0..=LABEL_LAST => LABEL_CELLS <= size && size <= BANK_CELLS,
        RESERVED_FIRST..=RESERVED_LAST => size == 0,
        FIXED_BANK => size == FIXED_CELLS,
        _ => size <= BANK_CELLS,
    }
}

// Whether each size of a part is one that its first bank may have: a part's banks are all of one kind.
fn part_holds(first: u8, part: &[u8]) -> bool
    ensures { result ≡ list_all (λ size. size_holds first size) part.now }
{
    for size in part {
        if !size_holds(first, *size) {
            return false;
        }
    }
    true
}

// Whether a size sheet keeps its rule in every bank. It is asked part by part, banks of one kind each: a loop
// that looks up each bank's rule takes twice the time, and calls that do little else ask all 256 banks.
#[tactic(auto, using(crate::proofs::Sizes::size_count))]
fn sizes_hold(sizes: &[u8]) -> bool
    requires { sizes_long sizes.now ≡ true }
    ensures { result ≡ sizes_hold 0 sizes.now }
{
    let label_end = usize::from(LABEL_LAST) + 1;
    let reserved = usize::from(RESERVED_FIRST);
    let fixed = usize::from(FIXED_BANK);
    part_holds(0, &sizes[..label_end])
        && part_holds(LABEL_LAST + 1, &sizes[label_end..reserved])
        && part_holds(RESERVED_FIRST, &sizes[reserved..fixed])
        && size_holds(FIXED_BANK, sizes[fixed])
        && part_holds(FIXED_BANK + 1, &sizes[fixed + 1..])
}

// Whether both sheets keep their rules: what refusal 5 asks.
pub fn sheets_hold(sheets: Sheets<'_, '_>) -> bool
    requires sheet_value { sizes_long sheets.sizes.now ≡ true }
    requires fixed_value { fixed_long sheets.fixed.now ≡ true }
    ensures { result ≡ sheets_hold (sheets_of sheets.entry.sizes.now sheets.entry.fixed.now) }
{
    sizes_hold(sheets.sizes) && sheets.fixed[1] == SUSI_VERSION
}

// The cells used in a bank.
pub fn size_of(sizes: &[u8], bank: u8) -> u8
    requires { sizes_long sizes.now ≡ true }
    ensures { result ≡ size_of sizes.now bank }
{
    sizes[usize::from(bank)]
}

// Whether the cell at an offset of a bank is readable.
#[tactic(auto, unfolding(crate::specs::Sheet::readable))]
pub fn readable(sizes: &[u8], bank: u8, offset: u8) -> bool
    requires { sizes_long sizes.now ≡ true }
    ensures { result ≡ readable sizes.now bank offset }
{
    offset < size_of(sizes, bank) && (bank != FIXED_BANK || offset != 0)
}

// Whether the cell at an offset of a bank is writable from the line.
pub fn writable(sizes: &[u8], bank: u8, offset: u8) -> bool
    requires { sizes_long sizes.now ≡ true }
    ensures { result ≡ writable sizes.now bank offset }
{
    readable(sizes, bank, offset)
        && bank != FIXED_BANK
        && (LABEL_LAST < bank || LABEL_CELLS <= offset)
}

// The count of leading readable cells of a bank: its size, but 0 for bank 254, whose first cell
// isn't readable.
pub fn leading(sizes: &[u8], bank: u8) -> u8
    requires { sizes_long sizes.now ≡ true }
    ensures { result ≡ leading_of sizes.now bank }
{
    if bank == FIXED_BANK {
        return 0;
    }
    size_of(sizes, bank)
}
