// First bytes, by the names of their commands; both directions use them. Which of them begin a packet
// of three bytes is the crate `line`'s to say. They stay bytes and become no enum: a packet can begin with
// any byte, and most of them begin no command.
pub const NO_OPERATION: u8 = 0x00;

pub const CALL: u8 = 0x01;

pub const BANK_READ_1: u8 = 0x0C;

pub const BANK_READ_2: u8 = 0x0D;

pub const BANK_READ_3: u8 = 0x0E;

pub const READ_CV: u8 = 0x0F;

pub const ACTUAL_SPEED: u8 = 0x24;

pub const WANTED_SPEED: u8 = 0x25;

pub const LOAD: u8 = 0x26;

pub const ADDRESS_LOW: u8 = 0x5E;

pub const ADDRESS_HIGH: u8 = 0x5F;

pub const FUNCTIONS_0: u8 = 0x60;

pub const FUNCTIONS_5: u8 = 0x61;

pub const FUNCTIONS_13: u8 = 0x62;

pub const FUNCTIONS_21: u8 = 0x63;

pub const CONTROL: u8 = 0x6C;

pub const SHORT_STATE: u8 = 0x6D;

pub const LONG_LOW: u8 = 0x6E;

pub const LONG_HIGH: u8 = 0x6F;

pub const VERIFY_BYTE: u8 = 0x77;

pub const BIT: u8 = 0x7B;

pub const WRITE_BYTE: u8 = 0x7F;

pub const POSITION_HIGH: u8 = 0x88;

pub const POSITION_LOW: u8 = 0x89;
