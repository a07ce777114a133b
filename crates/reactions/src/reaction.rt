// What a command leaves of the record, for each kind of command that needs no room for a reply.
ghost use Rattle.std.specs.Prelude.{◌≡◌, [], ◌<◌, length};
ghost use Rattle.board.specs.Board.{board_of};
ghost use Rattle.reactions.specs.Reactions.{told_of, reaction_of, no_effect, drive_effect, half_effect, address_effect};
ghost use Rattle.reactions.specs.Reactions.{states_effect, short_effect, long_effect, position_low_effect, verify_effect, write_effect};

use board::{Half, Module};
use cells::Settings;
use drive::Drive;
use position::Position;

// The record after a command; and where it is acknowledged, how many bytes of the reply room its reply
// takes. The room is lent, since nothing here has a heap: so the reply is its front, and a length.
#[derive(Clone, Copy)]
pub struct Reaction {
    pub kept: Module,
    pub reply: Option<usize>,
}

// The locomotive is told something: no acknowledgement, and no half is held.
pub fn told(kept: Module, drive: Drive) -> Reaction
    ensures { told_of result ≡ reaction_of (drive_effect (board_of kept [] []) drive) }
{
    Reaction {
        kept: kept.without_half().with_drive(drive),
        reply: None,
    }
}

// A first half, which waits for its second.
pub fn held(kept: Module, half: Half, byte: u8) -> Reaction
    ensures { told_of result ≡ reaction_of (half_effect (board_of kept [] []) half byte) }
{
    Reaction {
        kept: kept.with_half(half, byte),
        reply: None,
    }
}

// Nothing is done but that a held half is dropped.
pub fn nothing(kept: Module) -> Reaction
    ensures { told_of result ≡ reaction_of (no_effect (board_of kept [] [])) }
{
    Reaction {
        kept: kept.without_half(),
        reply: None,
    }
}

// The high half of an address acts on its own low half alone.
pub fn address_high(kept: Module, high: u8) -> Reaction
    ensures { told_of result ≡ reaction_of (address_effect (board_of kept [] []) high) }
{
    if !kept.holds_half(Half::AddressHalf) {
        return nothing(kept);
    }
    told(kept, kept.drive.with_address(kept.halfbyte, high))
}

// States were switched, and so many are on.
fn switched(kept: Module, stateson: u16) -> Reaction
    ensures { told_of result ≡ reaction_of (states_effect (board_of kept [] []) stateson []) }
{
    Reaction {
        kept: kept.without_half().with_stateson(stateson),
        reply: None,
    }
}

// A short command for states. It asks for a number below 128, as `states` does: a command can hold any.
pub fn short_state(kept: Module, number: u8, on: bool, states: &mut [u8]) -> Reaction
    requires states_len { length states.old ≡ 4096 }
    requires number_bound { number < 128 }
    ensures value { told_of result ≡ reaction_of (short_effect (board_of kept states.old []) number on) }
    ensures states_after { states.new ≡ (short_effect (board_of kept states.old []) number on).board.states }
{
    let stateson = states::stateson_after_short(kept.stateson, states, number, on);
    states::set_short(states, number, on);
    switched(kept, stateson)
}

// The high half of a long state acts on its own low half alone.
pub fn long_high(kept: Module, high: u8, states: &mut [u8]) -> Reaction
    requires { length states.old ≡ 4096 }
    ensures value { told_of result ≡ reaction_of (long_effect (board_of kept states.old []) high) }
    ensures states_after { states.new ≡ (long_effect (board_of kept states.old []) high).board.states }
{
    if !kept.holds_half(Half::StateHalf) {
        return nothing(kept);
    }
    let number = 128 * u16::from(high) + u16::from(bits::part_of(kept.halfbyte, 0, 7));
    let on = bits::bit_at(kept.halfbyte, 7) == 1;
    let stateson = states::stateson_after_long(kept.stateson, states, number, on);
    states::set_long(states, number, on);
    switched(kept, stateson)
}

// The low half of a position acts on its own high half alone.
pub fn position_low(kept: Module, low: u8) -> Reaction
    ensures { told_of result ≡ reaction_of (position_low_effect (board_of kept [] []) low) }
{
    if !kept.holds_half(Half::PositionHalf) {
        return nothing(kept);
    }
    let position = Position::heard(kept.halfbyte, low);
    Reaction {
        kept: kept.without_half().with_position(Some(position)),
        reply: None,
    }
}

// A verify: acknowledged where it is true.
pub fn verified(kept: Module, is: bool) -> Reaction
    ensures { told_of result ≡ reaction_of (verify_effect (board_of kept [] []) is) }
{
    Reaction {
        kept: kept.without_half(),
        reply: if is { Some(0) } else { None },
    }
}

// A write: acknowledged where it is done; the settings after it are handed over in any case. Flag and settings
// stay two, since the promise speaks of every pair of them.
pub fn written(kept: Module, done: bool, settings: Settings) -> Reaction
    ensures { told_of result ≡ reaction_of
        (write_effect (board_of kept [] []) (record { written = record { done = done; settings = settings }; store = [] })) }
{
    Reaction {
        kept: kept.without_half().with_settings(settings),
        reply: if done { Some(0) } else { None },
    }
}
