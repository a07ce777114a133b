// What a CV is to a module, and which bytes it takes from the line.
ghost use Rattle.std.specs.Prelude.{◌≡◌, ◌-◌, ◌*◌, ◌<◌, true};
ghost use Rattle.store.specs.Sheet.{sizes_long};
ghost use Rattle.cells.specs.Roles.{owns, offset_of, common, common_role, role_of, role_takes, may_write};

use store::writable;

// The first CV that module 1 owns.
const OWN_FIRST: u16 = 900;

// The last CV that module 1 owns.
const OWN_LAST: u16 = 939;

// How many CVs a module owns.
const OWN_CVS: u16 = 40;

// The first and the last common CV below those that modules own.
const LOW_FIRST: u16 = 897;

const LOW_LAST: u16 = 899;

// The first and the last common CV above them.
const HIGH_FIRST: u16 = 1020;

const HIGH_LAST: u16 = 1024;

// The CV of the module's number.
const NUMBER_CV: u16 = 897;

// The CV of the WAIT bit.
const WAIT_CV: u16 = 1020;

// The CV of the selected bank.
const BANK_CV: u16 = 1021;

// CV 897 holds 0 to 3.
pub const NUMBER_LAST: u8 = 3;

// What a CV is to a module.
#[derive(Clone, Copy)]
pub enum Role {
    // CV 897, the module's number
    Number,
    // CV 1020, the WAIT bit
    Wait,
    // CV 1021, the selected bank
    Bank,
    // a common CV that holds 0
    Zero,
    // an own cell, by its offset in the selected bank
    Own(u8),
    // neither owned nor common: a role as the paper's tables have it, so that a `match` on roles is one table
    NotHere,
}

// How far the CVs of a module stand behind those of module 1. Here and below the number is not 0, as each
// function asks by itself: a record can hold 0, which counts as 1.
fn shift(number: u8) -> u16
    requires { 0 < number }
    ensures { result ≡ 40 * (number - 1) }
{
    OWN_CVS * (u16::from(number) - 1)
}

// Whether a module owns a CV.
pub fn owned(number: u8, cv: u16) -> bool
    requires { 0 < number }
    ensures { result ≡ owns number cv }
{
    let past = shift(number);
    OWN_FIRST + past <= cv && cv <= OWN_LAST + past
}

// The offset of an own CV.
pub fn offset_of(number: u8, cv: u16) -> u8
    requires number_nonzero { 0 < number }
    requires cv_value { owns number cv ≡ true }
    ensures { result ≡ offset_of number cv }
{
    (cv - (OWN_FIRST + shift(number))) as u8
}

// Whether a CV is common to all modules.
#[tactic(auto, unfolding(crate::specs::Roles::common))]
fn is_common(cv: u16) -> bool
    ensures { result ≡ common cv }
{
    match cv {
        LOW_FIRST..=LOW_LAST => true,
        HIGH_FIRST..=HIGH_LAST => true,
        _ => false,
    }
}

// What a common CV is.
fn common_role(cv: u16) -> Role
    ensures { result ≡ common_role cv }
{
    match cv {
        NUMBER_CV => Role::Number,
        WAIT_CV => Role::Wait,
        BANK_CV => Role::Bank,
        _ => Role::Zero,
    }
}

// What a CV is to the module of a number.
pub fn role_of(number: u8, cv: u16) -> Role
    requires { 0 < number }
    ensures { result ≡ role_of number cv }
{
    if owned(number, cv) {
        return Role::Own(offset_of(number, cv));
    }
    if is_common(cv) {
        return common_role(cv);
    }
    Role::NotHere
}

// Whether a CV of this role takes a byte from the line.
#[tactic(auto, unfolding(crate::specs::Roles::role_takes))]
fn takes(role: Role, value: u8, bank: u8, sizes: &[u8]) -> bool
    requires { sizes_long sizes.now ≡ true }
    ensures { result ≡ role_takes role value bank sizes.now }
{
    match role {
        Role::Number => value <= NUMBER_LAST,
        Role::Bank => true,
        Role::Own(offset) => writable(sizes, bank, offset),
        Role::Wait => false,
        Role::Zero => false,
        Role::NotHere => false,
    }
}

// Whether a byte may be written to a CV of the module of this number, with this bank selected.
pub fn may_write(cv: u16, value: u8, number: u8, bank: u8, sizes: &[u8]) -> bool
    requires number_nonzero { 0 < number }
    requires sheet_value { sizes_long sizes.now ≡ true }
    ensures { result ≡ may_write cv value number bank sizes.now }
{
    takes(role_of(number, cv), value, bank, sizes)
}
