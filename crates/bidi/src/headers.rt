// The headers of BiDi halves, named as in the table of source document 001. They stay bytes and become no
// enum: a message is any four bytes, and refusal 6 says which of them are legal.

// Signal state.
pub const SIGNAL: u8 = 0x80;

// A function, directly. With data 0 it is the empty command.
pub const FUNCTION: u8 = 0x81;

// A function by its DCC number.
pub const DCC_FUNCTION: u8 = 0x82;

// Short binary states.
pub const BINARY_STATE: u8 = 0x83;

// Automatic speed.
pub const SPEED: u8 = 0x84;

// Automatic operation.
pub const OPERATION: u8 = 0x85;

// Position address, high and low: the two halves of one message.
pub const POSITION_HIGH: u8 = 0x88;

pub const POSITION_LOW: u8 = 0x89;

// A status byte.
pub const STATUS: u8 = 0x8A;

// Analog values, channels 1 and 2, and channels 3 and 4.
pub const ANALOG_A: u8 = 0x8C;

pub const ANALOG_B: u8 = 0x8D;

// The answer to a CV read: no value, and a value.
pub const CV_ERROR: u8 = 0x8E;

pub const CV_VALUE: u8 = 0x8F;
