// `show`: the record, the cells and the states that are not 0.
use crate::output::Output;
use bidi::Bidi;
use board::{Half, Module};
use cells::Settings;
use drive::Drive;
use line::Receiver;
use position::Position;

fn show_receiver(receiver: Receiver, out: &mut Output) {
    let row = [
        receiver.last,
        u64::from(receiver.bits),
        u64::from(receiver.count),
        u64::from(receiver.first),
        u64::from(receiver.second),
        u64::from(receiver.held),
        receiver.start,
        u64::from(receiver.started),
    ];
    out.put_row("receiver", &row);
}

fn show_half(half: Half, halfbyte: u8, out: &mut Output) {
    let word = match half {
        Half::NoHalf => "half none",
        Half::AddressHalf => "half address",
        Half::StateHalf => "half state",
        Half::PositionHalf => "half position",
    };
    out.put_row(word, &[u64::from(halfbyte)]);
}

fn show_drive(drive: Drive, out: &mut Output) {
    let row = [
        u64::from(drive.actual),
        u64::from(drive.wanted),
        u64::from(drive.load),
        u64::from(drive.address),
        u64::from(drive.functions),
        u64::from(drive.control),
    ];
    out.put_row("drive", &row);
}

fn show_position(position: Option<Position>, out: &mut Output) {
    match position {
        Some(heard) => {
            let row = [u64::from(heard.address), u64::from(heard.extended)];
            out.put_row("position", &row);
        }
        None => out.put("position unknown\n"),
    }
}

fn show_settings(settings: Settings, out: &mut Output) {
    let row = [
        u64::from(settings.number),
        u64::from(settings.wait),
        u64::from(settings.bank),
    ];
    out.put_row("settings", &row);
}

fn show_bidi(bidi: &Bidi, out: &mut Output) {
    let row = [
        u64::from(bidi.status0),
        u64::from(bidi.status1),
        u64::from(bidi.registered),
        u64::from(bidi.queued),
    ];
    out.put_row("bidi", &row);
    out.put("queue");
    out.put_bytes(&bidi.queue);
}

fn show_record(kept: &Module, out: &mut Output) {
    show_receiver(kept.receiver, out);
    show_half(kept.half, kept.halfbyte, out);
    show_drive(kept.drive, out);
    show_position(kept.position, out);
    out.put_row("stateson", &[u64::from(kept.stateson)]);
    show_settings(kept.settings, out);
    show_bidi(&kept.bidi, out);
}

// The cells of the banks, 40 each.
fn show_cells(store: &[u8; 10300], out: &mut Output) {
    for (place, value) in store[..10240].iter().enumerate() {
        if *value != 0 {
            let at = place as u64;
            out.put_row("cell", &[at / 40, at % 40, u64::from(*value)]);
        }
    }
}

// The states, eight in a byte.
fn show_states(states: &[u8; 4200], out: &mut Output) {
    for (place, byte) in states[..4096].iter().enumerate() {
        for bit in 0..8 {
            if bits::bit_at(*byte, bit) != 0 {
                out.put_row("state", &[8 * (place as u64) + u64::from(bit)]);
            }
        }
    }
}

pub fn show(kept: &Module, states: &[u8; 4200], store: &[u8; 10300], out: &mut Output) {
    show_record(kept, out);
    show_cells(store, out);
    show_states(states, out);
}
