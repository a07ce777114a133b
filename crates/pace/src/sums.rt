// Sums in which every number counts, by its lower 32 bits, and its place.
use bidi::Bidi;
use board::{Half, Module};
use cells::Settings;
use drive::Drive;
use line::Receiver;
use position::Position;

pub fn with(sum: u64, number: u64) -> u64 {
    sum % 4294967296 * 16777619 + number % 4294967296
}

pub fn of_bytes(from: u64, bytes: &[u8]) -> u64 {
    bytes
        .iter()
        .fold(from, |sum, byte| with(sum, u64::from(*byte)))
}

fn of_receiver(from: u64, receiver: Receiver) -> u64 {
    let sum = with(from, receiver.last);
    let sum = with(sum, u64::from(receiver.bits));
    let sum = with(sum, u64::from(receiver.count));
    let sum = with(sum, u64::from(receiver.first));
    let sum = with(sum, u64::from(receiver.second));
    let sum = with(sum, u64::from(receiver.held));
    let sum = with(sum, receiver.start);
    with(sum, u64::from(receiver.started))
}

fn of_drive(from: u64, drive: Drive) -> u64 {
    let sum = with(from, u64::from(drive.actual));
    let sum = with(sum, u64::from(drive.wanted));
    let sum = with(sum, u64::from(drive.load));
    let sum = with(sum, u64::from(drive.address));
    let sum = with(sum, u64::from(drive.functions));
    with(sum, u64::from(drive.control))
}

fn of_position(from: u64, kept: Option<Position>) -> u64 {
    match kept {
        None => with(from, 0),
        Some(position) => {
            let sum = with(from, 1 + u64::from(position.address));
            with(sum, u64::from(position.extended))
        }
    }
}

fn of_settings(from: u64, settings: Settings) -> u64 {
    let sum = with(from, u64::from(settings.number));
    let sum = with(sum, u64::from(settings.wait));
    with(sum, u64::from(settings.bank))
}

fn of_bidi(from: u64, bidi: Bidi) -> u64 {
    let sum = with(from, u64::from(bidi.status0));
    let sum = with(sum, u64::from(bidi.status1));
    let sum = with(sum, u64::from(bidi.queued));
    let sum = of_bytes(sum, &bidi.queue);
    with(sum, u64::from(bidi.registered))
}

// The numbers belong to the sum that is written, and to no order of the enum.
fn of_half(from: u64, half: Half) -> u64 {
    match half {
        Half::NoHalf => with(from, 0),
        Half::AddressHalf => with(from, 1),
        Half::StateHalf => with(from, 2),
        Half::PositionHalf => with(from, 3),
    }
}

pub fn of_record(from: u64, kept: Module) -> u64 {
    let sum = of_receiver(from, kept.receiver);
    let sum = of_half(sum, kept.half);
    let sum = with(sum, u64::from(kept.halfbyte));
    let sum = of_drive(sum, kept.drive);
    let sum = of_position(sum, kept.position);
    let sum = with(sum, u64::from(kept.stateson));
    let sum = of_settings(sum, kept.settings);
    of_bidi(sum, kept.bidi)
}
