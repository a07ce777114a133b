// The record of a board.
ghost use Rattle.std.specs.Prelude.{◌≡◌};
ghost use Rattle.refusals.specs.Numbers.{refusal_in};
ghost use Rattle.store.specs.Sheet.{sheets_of};
ghost use Rattle.board.specs.Board.{board_of, holds_half, half_possible, module_possible, buffers_hold, board_refusal};
ghost use Rattle.board.specs.Board.{with_receiver, with_half, with_drive, with_position, with_settings, with_bidi, with_states_on, without_half};
ghost use Rattle.board.specs.Board.{fresh_as, restarted_of, fresh_module};

use bidi::Bidi;
use cells::Settings;
use drive::Drive;
use line::Receiver;
use position::Position;
use refusals::Refusal;
use store::Sheets;

// Which half of two, waiting for the other, was the command just before, if any.
#[derive(Clone, Copy, PartialEq, Eq, Debug)]
pub enum Half {
    NoHalf,
    AddressHalf,
    StateHalf,
    PositionHalf,
}

// What a board keeps: the receiver, a held half with the byte that came with it (0 where none is
// held), its four subjects, and how many states are on (the states themselves are lent). The two
// fields that requests added stand last: before the others they double what a packet costs the bench
// (docs/changes/C-12.md, C-05.md).
// Half and byte stay two fields, since any record can be handed in: row 12 of the table refuses a byte
// where no half is held, and a scenario sets the one without the other.
#[derive(Clone, Copy)]
pub struct Module {
    pub receiver: Receiver,
    pub half: Half,
    pub halfbyte: u8,
    pub drive: Drive,
    pub settings: Settings,
    pub bidi: Bidi,
    pub position: Option<Position>,
    // How many of the states 1 to 32767 are on (C-05). Any value is taken: only
    // `counts::checked_counts` compares it with the states.
    pub stateson: u16,
}

// With no half held the byte is 0; a position's high half has three address bits and the extended mark.
fn half_possible(half: Half, byte: u8) -> bool
    ensures { result ≡ half_possible half byte }
{
    match half {
        Half::NoHalf => byte == 0,
        Half::AddressHalf => true,
        Half::StateHalf => true,
        Half::PositionHalf => byte <= Position::MAX_HIGH,
    }
}

// Whether states, store, sheets and reply room have their lengths: refusal 4.
#[tactic(auto, unfolding(crate::specs::Board::buffers_hold))]
fn buffers_hold(states: &[u8], store: &[u8], sheets: Sheets<'_, '_>, room: &[u8]) -> bool
    ensures { result ≡ buffers_hold states.now store.now
        (sheets_of sheets.entry.sizes.now sheets.entry.fixed.now) room.now }
{
    states::length_holds(states) && cells::lengths_hold(store, sheets) && bank::room_holds(room)
}

// The record of a module with this number that has this bank selected, all else as a restart leaves it.
fn fresh_as(number: u8, bank: u8) -> Module
    ensures { result ≡ fresh_as number bank }
{
    Module {
        receiver: Receiver::new(),
        half: Half::NoHalf,
        halfbyte: 0,
        drive: Drive::new(),
        settings: Settings {
            number,
            wait: 0,
            bank,
        },
        bidi: Bidi::new(),
        position: None,
        stateson: 0,
    }
}

impl Module {
    // A module as it is made: CV 897 is 1, CV 1021 is 0, all else as after a restart.
    pub fn new() -> Module
        ensures { result ≡ fresh_module }
    {
        fresh_as(1, 0)
    }

    // What a restart leaves: CV 897 and CV 1021 as they were, all else as in a module just made.
    pub fn restarted(self) -> Module
        ensures { result ≡ restarted_of self }
    {
        let number = self.settings.number;
        let bank = self.settings.bank;
        fresh_as(number, bank)
    }

    // Whether commands and the application can have left this record: refusal 12.
    #[tactic(auto, unfolding(crate::specs::Board::module_possible))]
    pub fn possible(self) -> bool
        ensures { result ≡ module_possible self }
    {
        self.receiver.possible()
            && half_possible(self.half, self.halfbyte)
            && self.drive.possible()
            && self.settings.possible()
            && self.bidi.possible()
            && Position::possible(self.position)
    }

    // Refuses with the first of 12, 4, 5 that the record or what is lent gives cause for.
    pub fn refusal(
        self,
        states: &[u8],
        store: &[u8],
        sheets: Sheets<'_, '_>,
        room: &[u8],
    ) -> Result<(), Refusal>
        ensures { refusal_in result ≡ board_refusal (board_of self states.now store.now)
            (sheets_of sheets.entry.sizes.now sheets.entry.fixed.now) room.now }
    {
        if !self.possible() {
            return Err(Refusal::Impossible);
        }
        if !buffers_hold(states, store, sheets, room) {
            return Err(Refusal::Lengths);
        }
        if !cells::sheets_hold(sheets) {
            return Err(Refusal::Sheet);
        }
        Ok(())
    }

    // The record with one part of it another.
    pub fn with_receiver(mut self, receiver: Receiver) -> Module
        ensures { result ≡ with_receiver self receiver }
    {
        self.receiver = receiver;
        self
    }

    pub fn with_half(mut self, half: Half, halfbyte: u8) -> Module
        ensures { result ≡ with_half self half halfbyte }
    {
        self.half = half;
        self.halfbyte = halfbyte;
        self
    }

    pub fn with_drive(mut self, drive: Drive) -> Module
        ensures { result ≡ with_drive self drive }
    {
        self.drive = drive;
        self
    }

    pub fn with_position(mut self, position: Option<Position>) -> Module
        ensures { result ≡ with_position self position }
    {
        self.position = position;
        self
    }

    pub fn with_settings(mut self, settings: Settings) -> Module
        ensures { result ≡ with_settings self settings }
    {
        self.settings = settings;
        self
    }

    pub fn with_bidi(mut self, bidi: Bidi) -> Module
        ensures { result ≡ with_bidi self bidi }
    {
        self.bidi = bidi;
        self
    }

    pub fn with_stateson(mut self, stateson: u16) -> Module
        ensures { result ≡ with_states_on self stateson }
    {
        self.stateson = stateson;
        self
    }

    // No half is held any more.
    pub fn without_half(self) -> Module
        ensures { result ≡ without_half self }
    {
        self.with_half(Half::NoHalf, 0)
    }

    // Whether a half of this kind was the command just before.
    pub fn holds_half(self, half: Half) -> bool
        ensures { result ≡ holds_half self half }
    {
        self.half == half
    }
}
