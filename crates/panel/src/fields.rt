// `set`: the record with one of its fields another number, possible or not.
ghost use Rattle.std.specs.Prelude.{◌≡◌};
ghost use Rattle.panel.specs.Fields.{field_number, field_set, half_set, place_set};

use board::{Half, Module};
use scenario::Field;

// The parser has seen to it that a number has room in its field: nothing is cut off.
#[tactic(auto, unfolding(crate::specs::Fields::field_number, crate::specs::Fields::field_set, crate::specs::Fields::receiver_with, crate::specs::Fields::drive_with, crate::specs::Fields::settings_with, crate::specs::Fields::bidi_with, crate::specs::Fields::byte_if, crate::specs::Fields::flag_if, crate::specs::Fields::chosen))]
pub fn set(kept: Module, field: Field, value: u64) -> Module
    ensures { result ≡ field_set kept (field_number field) value }
{
    let mut after = kept;
    let byte = (value % 256) as u8;
    match field {
        Field::Last => after.receiver.last = value,
        Field::Bits => after.receiver.bits = byte,
        Field::Count => after.receiver.count = byte,
        Field::First => after.receiver.first = byte,
        Field::Second => after.receiver.second = byte,
        Field::Held => after.receiver.held = byte,
        Field::Start => after.receiver.start = value,
        Field::Started => after.receiver.started = byte,
        Field::Halfbyte => after.halfbyte = byte,
        Field::Actual => after.drive.actual = byte,
        Field::Wanted => after.drive.wanted = byte,
        Field::Load => after.drive.load = byte,
        Field::Address => after.drive.address = (value % 65536) as u16,
        Field::Functions => after.drive.functions = (value % 4294967296) as u32,
        Field::Control => after.drive.control = byte,
        Field::Number => after.settings.number = byte,
        Field::Wait => after.settings.wait = byte,
        Field::Bank => after.settings.bank = byte,
        Field::Status0 => after.bidi.status0 = byte,
        Field::Status1 => after.bidi.status1 = byte,
        Field::Registered => after.bidi.registered = value == 1,
        Field::Queued => after.bidi.queued = byte,
        Field::Stateson => after.stateson = (value % 65536) as u16,
    }
    after
}

// The byte of the half stays as it is.
pub fn hold(kept: Module, half: Half) -> Module
    ensures { result ≡ half_set kept half }
{
    kept.with_half(half, kept.halfbyte)
}

pub fn set_queue(kept: Module, place: u8, value: u8) -> Module
    ensures { result ≡ place_set kept place value }
{
    let mut bidi = kept.bidi;
    bidi.queue[usize::from(place % 32)] = value;
    kept.with_bidi(bidi)
}
