// The firmware's entry as a static library for C (include/muralintak.h, docs/FIRMWARE.md): `firmware::muralintak_edge`,
// exported under its name and with its contract.
#![tactic(auto)]

ghost use Rattle.firmware.specs.InPlace.{in_place, EdgeInPlacePromise};

use firmware::Outcome;
use line::Receiver;

// One edge, on the receiver in its place: what `firmware::muralintak_edge` says of it.
#[unsafe(no_mangle)]
pub extern "C" fn muralintak_edge(receiver: &mut Receiver, time: u64, level: u8) -> Outcome
    ensures { EdgeInPlacePromise receiver.old time level (in_place result receiver.new) }
{
    firmware::muralintak_edge(receiver, time, level)
}
