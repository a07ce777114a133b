// How many of the states 1 to 32767 are on (C-05). A module keeps the number, `stateson`, so that
// nobody counts 4,096 bytes at a command: one state moves it by one at most, the short broadcast (a
// command for all of 1 to 127) by what sixteen bytes say, and the long one sets it. What it becomes is
// told by the states as they are before the command.
ghost use Rattle.std.specs.Prelude.{◌≡◌, ◌-◌, ◌*◌, ◌≤◌, ◌<◌, length};
ghost use Rattle.ones.specs.Ones.{ones_among};
ghost use Rattle.states.specs.States.{state_at, states_on, moved_by, all_or_none, stateson_one, stateson_short, stateson_long};

use crate::{BYTES, SHORT_BYTES};

// How many states a broadcast reaches: 1 to 127, and 1 to 32767.
const SHORT_STATES: u16 = 127;

const LONG_STATES: u16 = 32767;

// How many bits of the first `count` bytes are 1. The count stands beside all bytes, as in lib.rt.
fn ones_in(states: &[u8], count: usize) -> u16
    requires count_in_bounds { count ≤ length states.now }
    requires count_bound { count ≤ 4096 }
    ensures { result ≡ ones_among (state_at states.now) 0 (8 * count) }
{
    let mut on: u16 = 0;
    for byte in &states[..count] {
        on += ones::of_byte(*byte) as u16;
    }
    on
}

// How many states of the first `count` bytes are on: bit 0 of byte 0 is left out.
fn on_in(states: &[u8], count: usize) -> u16
    requires count_nonzero { 0 < count }
    requires count_in_bounds { count ≤ length states.now }
    requires count_bound { count ≤ 4096 }
    ensures { result ≡ ones_among (state_at states.now) 1 (8 * count - 1) }
{
    ones_in(states, count) - u16::from(bits::bit_at(states[0], 0))
}

// How many of the states 1 to 32767 are on, counted anew.
pub fn states_on(states: &[u8]) -> u16
    requires { length states.now ≡ 4096 }
    ensures { result ≡ states_on states.now }
{
    on_in(states, BYTES)
}

// Of so many states all are on, or none: no conversion of a flag, and a product would say it less plainly.
fn all_or_none(count: u16, on: bool) -> u16
    ensures { result ≡ all_or_none count on }
{
    if on { count } else { 0 }
}

// The number kept, where `before` were on and `after` are; true or not, it moves by the difference.
fn moved(stateson: u16, before: u16, after: u16) -> u16
    ensures { result ≡ moved_by stateson before after }
{
    ((u32::from(stateson) + u32::from(after) + 65536 - u32::from(before)) % 65536) as u16
}

// The number kept after a command for one state.
fn stateson_after_one(stateson: u16, states: &[u8], number: u16, on: bool) -> u16
    requires { number < 8 * length states.now }
    ensures { result ≡ stateson_one stateson states.now number on }
{
    let at = usize::from(number / 8);
    let place = (number % 8) as u8;
    moved(
        stateson,
        u16::from(bits::bit_at(states[at], place)),
        u16::from(on),
    )
}

// The number kept after a short command, which puts state 1 to 127 on or off, or with number 0 all of
// these. Short and long stay two functions, as `set_short` says.
pub fn stateson_after_short(stateson: u16, states: &[u8], number: u8, on: bool) -> u16
    requires states_len { length states.now ≡ 4096 }
    requires number_bound { number < 128 }
    ensures { result ≡ stateson_short stateson states.now number on }
{
    if number == 0 {
        let before = on_in(states, SHORT_BYTES);
        return moved(stateson, before, all_or_none(SHORT_STATES, on));
    }
    stateson_after_one(stateson, states, u16::from(number), on)
}

// The number kept after a long command, which puts state 1 to 32767 on or off, or with number 0 all
// of these.
pub fn stateson_after_long(stateson: u16, states: &[u8], number: u16, on: bool) -> u16
    requires states_len { length states.now ≡ 4096 }
    requires number_bound { number < 32768 }
    ensures { result ≡ stateson_long stateson states.now number on }
{
    if number == 0 {
        return all_or_none(LONG_STATES, on);
    }
    stateson_after_one(stateson, states, number, on)
}
