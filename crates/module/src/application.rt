// What the application asks of its module.
ghost use Rattle.std.specs.Prelude.{◌≡◌};
ghost use Rattle.module.specs.Application.{PostPromise, StatusPromise, WaitPromise, RestartPromise, kept_as, restart};

use board::Module;
use refusals::Refusal;

// A restart keeps CV 897, CV 1021 and the store (which it isn't lent) and puts all else back, the
// states too. Refuses with 12 an impossible record, with 4 states that are not 4,096 bytes; record
// and states are then as they were.
pub fn restart(kept: Module, states: &mut [u8]) -> Result<Module, Refusal>
    ensures { RestartPromise kept states.old (restart (kept_as kept result) states.new) }
{
    if !kept.possible() {
        return Err(Refusal::Impossible);
    }
    if !states::length_holds(states) {
        return Err(Refusal::Lengths);
    }
    states::clear(states);
    Ok(kept.restarted())
}

// Puts a message, two (header, data) halves, at the end of the queue. Refuses with 12 an impossible
// record, with 6 a message that is not legal, with 7 where the queue holds 8.
#[tactic(auto, unfolding(crate::specs::Application::PostPromise, crate::specs::Application::post_of))]
pub fn post(kept: Module, message: [u8; 4]) -> Result<Module, Refusal>
    ensures { PostPromise kept message (kept_as kept result) }
{
    if !kept.possible() {
        return Err(Refusal::Impossible);
    }
    let bidi = kept.bidi.post(message)?;
    Ok(kept.with_bidi(bidi))
}

// Sets status 0 or 1. Refuses with 12 an impossible record, with 11 another number, or a value with
// a reserved bit.
#[tactic(auto, unfolding(crate::specs::Application::StatusPromise, crate::specs::Application::status_of))]
pub fn set_status(kept: Module, number: u8, value: u8) -> Result<Module, Refusal>
    ensures { StatusPromise kept number value (kept_as kept result) }
{
    if !kept.possible() {
        return Err(Refusal::Impossible);
    }
    let bidi = kept.bidi.set_status(number, value)?;
    Ok(kept.with_bidi(bidi))
}

// Puts the WAIT bit of CV 1020 on or off. Refuses with 12 an impossible record.
#[tactic(auto, unfolding(crate::specs::Application::WaitPromise, crate::specs::Application::wait_of))]
pub fn set_wait(kept: Module, on: bool) -> Result<Module, Refusal>
    ensures { WaitPromise kept on (kept_as kept result) }
{
    if !kept.possible() {
        return Err(Refusal::Impossible);
    }
    Ok(kept.with_settings(kept.settings.with_wait(on)))
}
