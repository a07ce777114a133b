// Why we say no: the refusals of document 01's table, in its order. Definitions in specs/ of other crates write the
// paper's numerals; code names the refusal. Definitions: specs/Numbers.antt.
#![tactic(auto)]

ghost use Rattle.std.specs.Prelude.{◌≡◌};
ghost use Rattle.refusals.specs.Numbers.{paper_number};

// The causes of the table, each with its number.
#[derive(Clone, Copy, PartialEq, Eq, Debug)]
pub enum Refusal {
    // The lists of times and levels differ in length.
    Uneven = 1,
    // A level is neither 0 nor 1.
    Level = 2,
    // A time is below that of the edge before.
    Time = 3,
    // Store, a sheet or states of another length, or too little room.
    Lengths = 4,
    // The size sheet or the fixed sheet breaks its rule.
    Sheet = 5,
    // A posted message is not legal.
    Message = 6,
    // The queue holds 8.
    Queue = 7,
    // A CV, bit, number or value that a command has no room for.
    Room = 8,
    // A bank reply that is not of the shape.
    Shape = 9,
    // A bank reply of the right shape with a wrong checksum.
    Checksum = 10,
    // A status number over 1, or a status with a reserved bit.
    Status = 11,
    // The record is impossible, in a way that the table's row names.
    Impossible = 12,
}

impl Refusal {
    // The number of the paper's table.
    pub fn number(self) -> u8
        ensures { result ≡ paper_number self }
    {
        self as u8
    }
}

impl From<Refusal> for u8 {
    ghost from_gives = { λ why number. number ≡ paper_number why };

    fn from(why: Refusal) -> u8 {
        why.number()
    }
}
