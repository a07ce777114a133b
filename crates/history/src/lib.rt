// The versions of a board's settings and the changes kept of them (C-07): a number that every
// acknowledged write to a cell raises, and for the last 64 of these writes where it was and the byte
// before, so that it can be gone back to an earlier version.
//
// Number and count go by value, the changes are lent: 192 bytes, three to a change (bank, offset, byte
// before), the oldest first, unused bytes 0. Definitions: specs/History.antt, over those of `slots`. Laws:
// proofs/Kept.antt (what is possible stays so), proofs/Undone.antt (what going back gives).
#![tactic(auto)]

ghost use Rattle.std.specs.Prelude.{◌≡◌, true, ◌≤◌, ◌<◌, length};
ghost use Rattle.slots.specs.Slots.{unused_zero, joined_by, after_oldest};
ghost use Rattle.store.specs.Sheet.{sizes_long};
ghost use Rattle.history.specs.History.{fresh_history, change, changes_long, history_possible, kept_writable, version_free, noting, noted};
ghost use Rattle.history.specs.History.{reaches, past, newest_undone, went_back, gone_back, KeptWithin};

// At most so many changes are kept.
const CHANGES_KEPT: u8 = 64;

// So many bytes a change has.
const CHANGE_BYTES: usize = 3;

// So many bytes all of them have.
const CHANGES_BYTES: usize = 192;

// The last version: from it on cells are not written.
const VERSION_LAST: u32 = 4294967295;

// The version number, and how many versions back can be gone to: so many changes are kept. Any two numbers can
// be handed in, and `possible` says which a run can have left.
#[derive(Clone, Copy)]
pub struct History {
    pub version: u32,
    pub reach: u8,
}

// Whether the changes have their length: their part of refusal 4. So they are a slice of any length, and each
// function that reads or changes them asks for this.
pub fn changes_long(changes: &[u8]) -> bool
    ensures { result ≡ changes_long changes.now }
{
    changes.len() == CHANGES_BYTES
}

// Whether every byte behind so many changes is 0: their part of refusal 12. It goes on to the end, so that
// the compiler takes many bytes at once: a feed asks this at each call.
// This, `put_change` and `drop_oldest` do for three bytes an entry what bidi's `rest_zero`, `joined` and
// `without_first` do for four: those take and give an array by value, and one function for both would be longer.
pub fn unused_zero(reach: u8, changes: &[u8]) -> bool
    ensures { result ≡ unused_zero 3 reach changes.now }
{
    let Some(unused) = changes.get(usize::from(reach) * CHANGE_BYTES..) else {
        return true;
    };
    let mut seen: u8 = 0;
    for byte in unused {
        seen |= *byte;
    }
    seen == 0
}

// Whether the cells of so many changes are all writable by the size sheet: the part of refusal 12 that
// comes after 5.
pub fn kept_writable(reach: u8, changes: &[u8], sizes: &[u8]) -> bool
    requires reach_bound { reach ≤ 64 }
    requires changes_value { changes_long changes.now ≡ true }
    requires sizes_value { sizes_long sizes.now ≡ true }
    ensures { result ≡ kept_writable reach changes.now sizes.now }
{
    let kept = &changes[..CHANGE_BYTES * usize::from(reach)];
    for change in kept.chunks_exact(CHANGE_BYTES) {
        if !store::writable(sizes, change[0], change[1]) {
            return false;
        }
    }
    true
}

// Puts a change at a place. Its three bytes stay three parameters, as the store's functions take them.
fn put_change(changes: &mut [u8], place: u8, bank: u8, offset: u8, before: u8)
    requires place_bound { place < 64 }
    requires changes_value { changes_long changes.old ≡ true }
    ensures { changes.new ≡ joined_by 3 changes.old place (change bank offset before) }
{
    let at = CHANGE_BYTES * usize::from(place);
    changes[at..at + CHANGE_BYTES].copy_from_slice(&[bank, offset, before]);
}

// Pushes the oldest change out: each of the others moves up by a place, and the last place becomes 0.
fn drop_oldest(changes: &mut [u8])
    requires { changes_long changes.old ≡ true }
    ensures { changes.new ≡ after_oldest 3 changes.old }
{
    changes.copy_within(CHANGE_BYTES.., 0);
    put_change(changes, CHANGES_KEPT - 1, 0, 0, 0);
}

// Puts the newest change back into the store and forgets it; gives how many are left.
fn undo_newest(reach: u8, changes: &mut [u8], store: &mut [u8]) -> u8
    requires reach_nonzero { 0 < reach }
    requires reach_bound { reach ≤ 64 }
    requires changes_value { changes_long changes.old ≡ true }
    requires kept_within { KeptWithin reach changes.old store.old }
    ensures { past result changes.new store.new ≡ newest_undone (past reach changes.old store.old) }
{
    let place = reach - 1;
    let at = CHANGE_BYTES * usize::from(place);
    store::put_cell(store, changes[at], changes[at + 1], changes[at + 2]);
    put_change(changes, place, 0, 0, 0);
    place
}

impl History {
    // A board just made has version 0, and no changes are kept of it.
    pub fn new() -> History
        ensures { result ≡ fresh_history }
    {
        History {
            version: 0,
            reach: 0,
        }
    }

    // At most 64 changes are kept, and no more than there were: the number's part of refusal 12.
    pub fn possible(self) -> bool
        ensures { result ≡ history_possible self }
    {
        self.reach <= CHANGES_KEPT && u32::from(self.reach) <= self.version
    }

    // Whether there is a number for one more version.
    pub fn version_free(self) -> bool
        ensures { result ≡ version_free self }
    {
        self.version < VERSION_LAST
    }

    // A cell was written: one version more, and what was there is kept. Where 64 are kept, the oldest is
    // pushed out.
    pub fn noted(self, changes: &mut [u8], bank: u8, offset: u8, before: u8) -> History
        requires self_value { history_possible self ≡ true }
        requires self_value_2 { version_free self ≡ true }
        requires changes_value { changes_long changes.old ≡ true }
        ensures { noting result changes.new ≡ noted self changes.old (change bank offset before) }
    {
        let version = self.version + 1;
        if self.reach < CHANGES_KEPT {
            put_change(changes, self.reach, bank, offset, before);
            return History {
                version,
                reach: self.reach + 1,
            };
        }
        drop_oldest(changes);
        put_change(changes, CHANGES_KEPT - 1, bank, offset, before);
        History {
            version,
            reach: CHANGES_KEPT,
        }
    }

    // Whether it can be gone back to a version: it is not newer than the present one, nor older than the
    // kept changes reach.
    pub fn reaches(self, version: u32) -> bool
        requires { history_possible self ≡ true }
        ensures { result ≡ reaches self version }
    {
        version <= self.version && self.version - version <= u32::from(self.reach)
    }

    // Puts the changes that are later than a version back, newest first, and forgets them.
    pub fn gone_back(self, version: u32, changes: &mut [u8], store: &mut [u8]) -> History
        requires self_value { history_possible self ≡ true }
        requires version_value { reaches self version ≡ true }
        requires changes_value { changes_long changes.old ≡ true }
        requires kept_within { KeptWithin self.reach changes.old store.old }
        ensures { went_back result changes.new store.new ≡ gone_back self version changes.old store.old }
    {
        let mut reach = self.reach;
        for _ in version..self.version {
            reach = undo_newest(reach, changes, store);
        }
        History { version, reach }
    }
}
