// Which messages and statuses are legal.
ghost use Rattle.std.specs.Prelude.{◌≡◌};
ghost use Rattle.bidi.specs.Messages.{signal_legal, kind_legal, function_legal, dcc_legal, half_legal, position_legal, message_legal};
ghost use Rattle.bidi.specs.Messages.{status_legal};

use crate::headers::{
    ANALOG_A, ANALOG_B, BINARY_STATE, DCC_FUNCTION, FUNCTION, OPERATION, POSITION_HIGH,
    POSITION_LOW, SIGNAL, SPEED,
};

// A function's data is its kind alone (an impulse), or the kind with 32 (on) or 64 (off) added.
const KINDS: u8 = 32;

// So a function's data is below this.
const FUNCTION_DATA: u8 = 96;

// No function (kind 0) put on: not permitted.
const NOTHING_ON: u8 = 32;

// The last DCC function, F28.
const DCC_LAST: u8 = 28;

// The last way of automatic operation.
const OPERATION_LAST: u8 = 7;

// The last high half of a position: three address bits and the extended mark.
const POSITION_LAST: u8 = 15;

// The bits that status 0 uses: 0, 1, 4.
const STATUS_0_BITS: u8 = 0x13;

// The bits that status 1 uses: 0, 1.
const STATUS_1_BITS: u8 = 0x03;

// The signal states: stop, slow, go.
fn signal_legal(value: u8) -> bool
    ensures { result ≡ signal_legal value }
{
    match value {
        0 | 4 | 15 => true,
        _ => false,
    }
}

// The kinds that a function named directly can have.
#[tactic(auto, unfolding(crate::specs::Messages::kind_legal))]
fn kind_legal(kind: u8) -> bool
    ensures { result ≡ kind_legal kind }
{
    match kind {
        0..=7 => true,
        15 | 16 | 17 | 19 | 24 | 25 => true,
        _ => false,
    }
}

// The data of a function named directly.
#[tactic(auto, unfolding(crate::specs::Messages::function_legal))]
fn function_legal(value: u8) -> bool
    ensures { result ≡ function_legal value }
{
    kind_legal(value % KINDS) && value < FUNCTION_DATA && value != NOTHING_ON
}

// The data of a function named by its DCC number.
fn dcc_legal(value: u8) -> bool
    ensures { result ≡ dcc_legal value }
{
    value % KINDS <= DCC_LAST && value < FUNCTION_DATA
}

// A half that stands for itself: a header and its data.
#[tactic(auto, unfolding(crate::specs::Messages::half_legal))]
fn half_legal(header: u8, value: u8) -> bool
    ensures { result ≡ half_legal header value }
{
    match header {
        SIGNAL => signal_legal(value),
        FUNCTION => function_legal(value),
        DCC_FUNCTION => dcc_legal(value),
        BINARY_STATE | SPEED | ANALOG_A | ANALOG_B => true,
        OPERATION => value <= OPERATION_LAST,
        _ => false,
    }
}

// A high half of a position, with the header that follows it.
fn position_legal(high: u8, next: u8) -> bool
    ensures { result ≡ position_legal high next }
{
    high <= POSITION_LAST && next == POSITION_LOW
}

// Whether two halves may be posted as one message: a position, or two halves that stand for
// themselves.
pub fn legal_message(message: [u8; 4]) -> bool
    ensures { result ≡ message_legal message }
{
    let header = message[0];
    if header == POSITION_HIGH {
        return position_legal(message[1], message[2]);
    }
    half_legal(header, message[1]) && half_legal(message[2], message[3])
}

// Whether there is a status of this number, and the value sets no bit that it reserves.
pub fn legal_status(number: u8, value: u8) -> bool
    ensures { result ≡ status_legal number value }
{
    match number {
        0 => value == value & STATUS_0_BITS,
        1 => value == value & STATUS_1_BITS,
        _ => false,
    }
}
