// How many states and how many functions are on (C-05): for a display, which asks after every
// command, from the record alone; and for a check, with the states counted anew. Both only look: the
// record goes by value, and the states are lent for reading. Definitions: specs/Counts.antt.
#![tactic(auto)]

ghost use Rattle.std.specs.Prelude.{◌≡◌, true};
ghost use Rattle.board.specs.Board.{module_possible};
ghost use Rattle.counts.specs.Counts.{counts_of, counted_as, ShownPromise, CheckedPromise};

use board::Module;
use refusals::Refusal;

// How many are on: of the states 1 to 32767, and of F0 to F28.
#[derive(Clone, Copy, PartialEq, Eq, Debug)]
pub struct Counts {
    pub states: u16,
    pub functions: u8,
}

// Both numbers, the one of the states being this.
fn answer(kept: Module, stateson: u16) -> Counts
    requires { module_possible kept ≡ true }
    ensures { result ≡ counts_of kept stateson }
{
    Counts {
        states: stateson,
        functions: kept.drive.functions_on(),
    }
}

// Both numbers by the record alone: that of the states is the one that it keeps. Refuses with 12 an
// impossible record.
pub fn shown_counts(kept: Module) -> Result<Counts, Refusal>
    ensures { ShownPromise kept (counted_as result) }
{
    if !kept.possible() {
        return Err(Refusal::Impossible);
    }
    Ok(answer(kept, kept.stateson))
}

// Both numbers, the states counted anew; bit 0 of byte 0 is no state. Refuses with 12 an impossible
// record, with 4 states that are not 4,096 bytes, and then with 12 a record that keeps another number.
pub fn checked_counts(kept: Module, states: &[u8]) -> Result<Counts, Refusal>
    ensures { CheckedPromise kept states.now (counted_as result) }
{
    if !kept.possible() {
        return Err(Refusal::Impossible);
    }
    if !states::length_holds(states) {
        return Err(Refusal::Lengths);
    }
    let stateson = states::states_on(states);
    if kept.stateson != stateson {
        return Err(Refusal::Impossible);
    }
    Ok(answer(kept, stateson))
}
