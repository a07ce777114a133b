// The settings of a module, and what CV packets read and write of them and of its cells.
ghost use Rattle.std.specs.Prelude.{◌≡◌, true, ℕ, ◌<◌, length};
ghost use Rattle.store.specs.Sheet.{sheets_of, store_long, sizes_long, lengths_hold, sheets_hold};
ghost use Rattle.store.specs.Store.{cell_place};
ghost use Rattle.cells.specs.Roles.{role_of};
ghost use Rattle.cells.specs.Settings.{settings_possible, effective_number, with_wait, read_of, own_cell_of};
ghost use Rattle.cells.specs.Settings.{verify_byte_of, verify_bit_of, settings_after, store_after, written_as, write_byte_of, write_bit_of};

use crate::role::{NUMBER_LAST, Role, may_write, offset_of, owned, role_of};
use store::{Sheets, put_cell, read_cell};

// CV 1020 with the WAIT bit, bit 0, and no other.
const WAIT_ON: u8 = 1;

// CV 897, CV 1020 as a byte of which bit 0 is the WAIT bit, and CV 1021. CV 1020 is no flag: any record can be
// handed in, and one with a reserved bit is refused (12).
#[derive(Clone, Copy)]
pub struct Settings {
    pub number: u8,
    pub wait: u8,
    pub bank: u8,
}

// Writes the cell of an own CV. Any other CV has none, and the store stays as it was.
fn put(role: Role, bank: u8, value: u8, store: &mut [u8])
    requires { (offset : ℕ) → role ≡ Role.Own offset → cell_place bank offset < length store.old }
    ensures { store.new ≡ store_after role bank value store.old }
{
    if let Role::Own(offset) = role {
        put_cell(store, bank, offset, value);
    }
}

impl Settings {
    // Whether settings are possible: CV 897 at most 3 and no reserved WAIT bit, their part of refusal 12.
    pub fn possible(self) -> bool
        ensures { result ≡ settings_possible self }
    {
        self.number <= NUMBER_LAST && self.wait <= WAIT_ON
    }

    // The number that the module goes by: a stored 0 counts as 1.
    pub fn module_number(self) -> u8
        ensures { result ≡ effective_number self }
    {
        if self.number == 0 {
            return 1;
        }
        self.number
    }

    // The settings with the WAIT bit on or off.
    pub fn with_wait(self, on: bool) -> Settings
        ensures { result ≡ with_wait self on }
    {
        Settings {
            wait: u8::from(on),
            ..self
        }
    }

    // What a CV is to this module.
    pub fn role(self, cv: u16) -> Role
        ensures { result ≡ role_of (effective_number self) cv }
    {
        role_of(self.module_number(), cv)
    }

    // The byte that a CV reads as, if it reads at all.
    #[tactic(auto, unfolding(crate::specs::Settings::read_of, crate::specs::Settings::role_reads))]
    pub fn read<'a>(self, cv: u16, store: &'a [u8], sheets: Sheets<'_, 'a>) -> Option<u8>
        requires fixed_value { lengths_hold store.now (sheets_of sheets.sizes.now sheets.fixed.now) ≡ true }
        requires fixed_value_2 { sheets_hold (sheets_of sheets.sizes.now sheets.fixed.now) ≡ true }
        ensures { result ≡ read_of self cv store.now (sheets_of sheets.entry.sizes.now sheets.entry.fixed.now) }
    {
        match self.role(cv) {
            Role::Number => Some(self.number),
            Role::Wait => Some(self.wait),
            Role::Bank => Some(self.bank),
            Role::Zero => Some(0),
            Role::Own(offset) => read_cell(store, sheets, self.bank, offset),
            Role::NotHere => None,
        }
    }

    // What an own CV reads as in the selected bank. A common CV and another module's aren't own.
    pub fn own_cell<'a>(
        self,
        cv: u16,
        store: &'a [u8],
        sheets: Sheets<'_, 'a>,
    ) -> Option<Option<u8>>
        requires fixed_value { lengths_hold store.now (sheets_of sheets.sizes.now sheets.fixed.now) ≡ true }
        requires fixed_value_2 { sheets_hold (sheets_of sheets.sizes.now sheets.fixed.now) ≡ true }
        ensures { result ≡ own_cell_of self cv store.now (sheets_of sheets.entry.sizes.now sheets.entry.fixed.now) }
    {
        let number = self.module_number();
        if !owned(number, cv) {
            return None;
        }
        Some(read_cell(store, sheets, self.bank, offset_of(number, cv)))
    }

    // Whether a CV reads as this byte.
    pub fn verify_byte<'a>(
        self,
        cv: u16,
        value: u8,
        store: &'a [u8],
        sheets: Sheets<'_, 'a>,
    ) -> bool
        requires fixed_value { lengths_hold store.now (sheets_of sheets.sizes.now sheets.fixed.now) ≡ true }
        requires fixed_value_2 { sheets_hold (sheets_of sheets.sizes.now sheets.fixed.now) ≡ true }
        ensures { result ≡ verify_byte_of self cv value store.now (sheets_of sheets.entry.sizes.now sheets.entry.fixed.now) }
    {
        self.read(cv, store, sheets) == Some(value)
    }

    // Whether the bit at a place of a CV reads as this value.
    pub fn verify_bit<'a>(
        self,
        cv: u16,
        place: u8,
        value: u8,
        store: &'a [u8],
        sheets: Sheets<'_, 'a>,
    ) -> bool
        requires fixed_value { lengths_hold store.now (sheets_of sheets.sizes.now sheets.fixed.now) ≡ true }
        requires fixed_value_2 { sheets_hold (sheets_of sheets.sizes.now sheets.fixed.now) ≡ true }
        requires place_bound { place < 8 }
        ensures { result ≡ verify_bit_of self cv place value store.now (sheets_of sheets.entry.sizes.now sheets.entry.fixed.now) }
    {
        match self.read(cv, store, sheets) {
            Some(byte) => bits::bit_at(byte, place) == value,
            None => false,
        }
    }

    // The settings after a write to a CV of this role.
    #[tactic(auto, unfolding(crate::specs::Settings::settings_after))]
    fn with_value(self, role: Role, value: u8) -> Settings
        ensures { result ≡ settings_after self role value }
    {
        match role {
            Role::Number => Settings {
                number: value,
                ..self
            },
            Role::Bank => Settings {
                bank: value,
                ..self
            },
            Role::Wait => self,
            Role::Zero => self,
            Role::Own(_) => self,
            Role::NotHere => self,
        }
    }

    // Writes a byte to a CV where that is allowed, and gives the settings after it: none where it isn't
    // done, which is not acknowledged and leaves the store as it was. One that is done changes CV 897,
    // CV 1021 or one cell.
    pub fn write_byte(self, cv: u16, value: u8, store: &mut [u8], sizes: &[u8]) -> Option<Settings>
        requires store_value { store_long store.old ≡ true }
        requires sheet_value { sizes_long sizes.now ≡ true }
        ensures value { written_as self result ≡ (write_byte_of self cv value store.old sizes.now).written }
        ensures store_after { store.new ≡ (write_byte_of self cv value store.old sizes.now).store }
    {
        let number = self.module_number();
        if !may_write(cv, value, number, self.bank, sizes) {
            return None;
        }
        let role = role_of(number, cv);
        put(role, self.bank, value, store);
        Some(self.with_value(role, value))
    }

    // Writes the bit at a place of a CV: the byte that it reads as, with that bit changed. A CV
    // that doesn't read isn't written.
    pub fn write_bit(
        self,
        cv: u16,
        place: u8,
        value: u8,
        store: &mut [u8],
        sheets: Sheets<'_, '_>,
    ) -> Option<Settings>
        requires fixed_value { lengths_hold store.old (sheets_of sheets.sizes.now sheets.fixed.now) ≡ true }
        requires fixed_value_2 { sheets_hold (sheets_of sheets.sizes.now sheets.fixed.now) ≡ true }
        requires place_bound { place < 8 }
        requires value_bound { value < 2 }
        ensures value { written_as self result ≡ (write_bit_of self cv place value store.old
            (sheets_of sheets.entry.sizes.now sheets.entry.fixed.now)).written }
        ensures store_after { store.new ≡ (write_bit_of self cv place value store.old
            (sheets_of sheets.entry.sizes.now sheets.entry.fixed.now)).store }
    {
        let byte = self.read(cv, store, sheets)?;
        self.write_byte(cv, bits::with_bit(byte, place, value), store, sheets.sizes)
    }
}
