// The pairs of commands that a host makes of one number, low half first. Definitions: specs/Pairs.antt.
ghost use Rattle.std.specs.Prelude.{◌≡◌};
ghost use Rattle.command.specs.Pairs.{address_halves, paired, LongStatePromise};

use crate::Command;
use refusals::Refusal;

// The two commands of a pair, to be sent low half first and nothing between.
#[derive(Clone, Copy)]
pub struct Halves {
    pub low: Command,
    pub high: Command,
}

impl Command {
    // The pair that tells an address. Refuses nothing.
    pub fn address(address: u16) -> Halves
        ensures { result ≡ address_halves address }
    {
        let [low, high] = address.to_le_bytes();
        Halves {
            low: Command::AddressLow(low),
            high: Command::AddressHigh(high),
        }
    }

    // The pair that puts a long state on or off; number 0 is all of 1 to 32767. Refuses with 8 a
    // number over 32767.
    pub fn long_state(number: u16, on: bool) -> Result<Halves, Refusal>
        ensures { LongStatePromise number on (paired result) }
    {
        if Command::LAST_STATE < number {
            return Err(Refusal::Room);
        }
        let low = Command::LongLow((number % 128) as u8, on);
        let high = Command::LongHigh((number / 128) as u8);
        Ok(Halves { low, high })
    }
}
