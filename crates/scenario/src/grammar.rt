// What a line can say.
use board::Half;
use command::Command;
use position::Position;

// The lent buffers.
#[derive(Clone, Copy)]
pub enum Buffer {
    Store,
    Sheet,
    States,
    Room,
    Fixed,
}

// The fields of the record that hold a number.
#[derive(Clone, Copy, PartialEq, Eq)]
pub enum Field {
    Last,
    Bits,
    Count,
    First,
    Second,
    Held,
    Start,
    Started,
    Halfbyte,
    Actual,
    Wanted,
    Load,
    Address,
    Functions,
    Control,
    Number,
    Wait,
    Bank,
    Status0,
    Status1,
    Registered,
    Queued,
    Stateson,
}

#[derive(Clone, Copy)]
pub enum Statement {
    // No words.
    Blank,
    // Not a statement. It stays a case and becomes no None: the tables of specs/Statements.antt end in it.
    Wrong,
    // A time and a level.
    Edge(u64, u8),
    // The end of a piece.
    Cut,
    // Two (header, data) halves.
    Post(u8, u8, u8, u8),
    // A status number and a value.
    Status(u8, u8),
    Wait(bool),
    Restart,
    // A bank and its size.
    Size(u8, u8),
    // A bank, an offset and a value.
    Cell(u8, u8, u8),
    Show,
    Set(Field, u64),
    // Which half is held.
    Hold(Half),
    // The position that was heard, or that none was.
    Locate(Option<Position>),
    // A place of the queue and a byte.
    Queue(u8, u8),
    Length(Buffer, u16),
    Uneven,
    Encode(Command),
    // So many bytes: the words 1, 2 and so on of the line.
    Read(usize),
    // A time, and so many bytes: the words 2, 3 and so on of the line.
    Bytes(u64, usize),
    // Both numbers of what is on: by the record alone, and with the states counted anew.
    Counts,
    Check,
    // A place of the lent states and a byte.
    StateByte(u16, u8),
    // An offset of the fixed sheet and a byte.
    FixedByte(u8, u8),
    // The used cells of a bank.
    View(u8),
}
