// The states 1 to 32767 in bytes that a caller lends: number n is bit n mod 8 of byte n div 8. Short
// and long commands share this one set. Bit 0 of byte 0 is no state: a command for all clears it, and
// a command for one leaves it. How many states are on stands in stateson.rt.
#![tactic(auto)]

mod stateson;

ghost use Rattle.std.specs.Prelude.{◌≡◌, ◌++◌, ◌*◌, ◌≤◌, ◌<◌, length, drop, replicate};
ghost use Rattle.states.specs.States.{length_holds, with_state, with_all, with_states, with_short, with_long, cleared};

pub use stateson::{states_on, stateson_after_long, stateson_after_short};

// How many bytes are lent. Each function asks for so many by itself: they come anew with every call, and
// refusal 4 is for any other length.
pub const BYTES: usize = 4096;

// How many of them the short numbers 1 to 127 reach.
pub const SHORT_BYTES: usize = 16;

// A byte whose eight states are on.
const ALL_ON: u8 = 255;

// Byte 0 with its seven states on.
const FIRST_ON: u8 = 254;

// Whether the lent bytes are as many as they must be: the states' part of refusal 4.
pub fn length_holds(states: &[u8]) -> bool
    ensures { result ≡ length_holds states.now }
{
    states.len() == BYTES
}

// Puts one state on or off and leaves every other as it was.
fn set_one(states: &mut [u8], number: u16, on: bool)
    requires { number < 8 * length states.old }
    ensures { states.new ≡ with_state states.old number on }
{
    let at = usize::from(number / 8);
    let place = (number % 8) as u8;
    states[at] = bits::with_bit(states[at], place, u8::from(on));
}

// Puts one byte into each of the first `count` places and leaves the others as they were.
fn fill(states: &mut [u8], count: usize, byte: u8)
    requires { count ≤ length states.old }
    ensures { states.new ≡ replicate count byte ++ drop count states.old }
{
    states[..count].fill(byte);
}

// Puts all states of the first `count` bytes on or off and leaves the other bytes as they were. Here and
// above the count stands beside all bytes, so that the promise can say that those behind it stay.
fn set_all(states: &mut [u8], count: usize, on: bool)
    requires count_nonzero { 0 < count }
    requires count_in_bounds { count ≤ length states.old }
    ensures { states.new ≡ with_all states.old count on }
{
    if on {
        fill(states, count, ALL_ON);
        states[0] = FIRST_ON;
    } else {
        fill(states, count, 0);
    }
}

// Puts one state on or off, or for number 0 all states of the first `count` bytes.
fn set_states(states: &mut [u8], count: usize, number: u16, on: bool)
    requires count_nonzero { 0 < count }
    requires count_in_bounds { count ≤ length states.old }
    requires number_bound { number < 8 * length states.old }
    ensures { states.new ≡ with_states count states.old number on }
{
    if number == 0 {
        set_all(states, count, on);
    } else {
        set_one(states, number, on);
    }
}

// A short command: puts state 1 to 127 on or off, or with number 0 all of these. Every other state
// stays as it was. Short and long stay two functions over `set_states`, since each has its own type and
// bound of a number, and so do `number` and `on` stay two parameters.
pub fn set_short(states: &mut [u8], number: u8, on: bool)
    requires states_len { length states.old ≡ 4096 }
    requires number_bound { number < 128 }
    ensures { states.new ≡ with_short states.old number on }
{
    set_states(states, SHORT_BYTES, u16::from(number), on);
}

// A long command: puts state 1 to 32767 on or off, or with number 0 all of these.
pub fn set_long(states: &mut [u8], number: u16, on: bool)
    requires states_len { length states.old ≡ 4096 }
    requires number_bound { number < 32768 }
    ensures { states.new ≡ with_long states.old number on }
{
    set_states(states, BYTES, number, on);
}

// What a restart does to the states: all off.
pub fn clear(states: &mut [u8])
    requires { length states.old ≡ 4096 }
    ensures { states.new ≡ cleared }
{
    fill(states, BYTES, 0);
}
