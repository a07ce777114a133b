// The reply of a bank, as bytes on the wire: how it is written, and what a reader finds in it.
//
// specs/Reply.antt makes the bytes from the cells; the writer here and the host's reader cite that
// one definition, and its laws are in proofs/Laws.antt. Nothing here knows of stores, sizes or bank
// numbers: the cells are a part of a slice that the caller hands over.
#![tactic(auto)]

ghost use Rattle.std.specs.Prelude.{◌≡◌, ◌++◌, ◌+◌, ◌≤◌, leb, length, take, drop};
ghost use Rattle.bank.specs.Reply.{pairs_of, body_of, reply_of, checksum_of, at_front};
ghost use Rattle.bank.specs.Group.{group_of, checksum_group, group_at};

// The header of a value. Headers stay bytes and become no enum: a reply that is read can hold any byte.
pub const VALUE: u8 = 0x8F;

// The header where there is no value, and the byte behind it that says why.
pub const NO_VALUE: u8 = 0x8E;

pub const NOT_READABLE: u8 = 0x01;

// The cells of a full bank: 20 groups of two.
pub const MOST_CELLS: usize = 40;

// The bytes of the longest reply: 20 groups, and that of the checksum.
pub const LONGEST_REPLY: usize = 84;

// What `group_at` finds a group, four bytes of a reply, to be at its place. Document 01 owes an enum for
// each group read, so that `Bad` is one of its cases and no `None`.
#[derive(Clone, Copy)]
pub enum Group {
    // Two cells.
    Cells,
    // An end group, with this many cells: 1 or none.
    End(usize),
    // The checksum group, with the checksum.
    Checksum(u8),
    // Nothing that may stand there.
    Bad,
}

// Whether a room has space for every reply: the reply room's part of refusal 4.
pub fn room_holds(room: &[u8]) -> bool
    ensures { result ≡ leb 84 (length room.now) }
{
    LONGEST_REPLY <= room.len()
}

// The checksum over the data bytes of what stands before the checksum group: each second byte, those
// after 8E included, headers not.
pub fn checksum(body: &[u8]) -> u8
    ensures { result ≡ checksum_of body.now }
{
    let table = crc::table();
    let mut crc: u8 = 0;
    for pair in body.chunks_exact(2) {
        crc = crc::byte_by_table(&table, crc, pair[1]);
    }
    crc
}

// Puts four bytes at their place, and leaves every other byte alone.
pub fn put(room: &mut [u8], at: usize, group: [u8; 4])
    requires { at + 4 ≤ length room.old }
    ensures { room.new ≡ take at room.old ++ group ++ drop (at + 4) room.old }
{
    room[at..at + 4].copy_from_slice(&group);
}

// The cells two by two, for as long as there are two; gives the bytes written. Each function here asks by
// itself for room and for at most 40 cells: a room of any length can be lent (refusal 4). The count is what it
// gives, so it is kept.
fn write_pairs(cells: &[u8], room: &mut [u8]) -> usize
    requires cells_len_bound { length cells.now ≤ 40 }
    requires in_bounds { 84 ≤ length room.old }
    ensures value { result ≡ length (pairs_of cells.now) }
    ensures room_after { room.new ≡ at_front (pairs_of cells.now) room.old }
{
    let mut at: usize = 0;
    for pair in cells.chunks_exact(2) {
        put(room, at, [VALUE, pair[0], VALUE, pair[1]]);
        at += 4;
    }
    at
}

// All groups before the checksum's; gives the bytes written. A full bank has no end group.
fn write_body(cells: &[u8], room: &mut [u8]) -> usize
    requires cells_len_bound { length cells.now ≤ 40 }
    requires in_bounds { 84 ≤ length room.old }
    ensures value { result ≡ length (body_of cells.now) }
    ensures room_after { room.new ≡ at_front (body_of cells.now) room.old }
{
    let n = cells.len();
    let at = write_pairs(cells, room);
    if n == MOST_CELLS {
        return at;
    }
    if n % 2 == 1 {
        put(room, at, [VALUE, cells[n - 1], NO_VALUE, NOT_READABLE]);
        return at + 4;
    }
    put(room, at, [NO_VALUE, NOT_READABLE, NO_VALUE, NOT_READABLE]);
    at + 4
}

// Writes the reply of some cells to the front of the room, and gives its length. The bytes past the
// reply stay as they were. The module has checked that there are at most 40 cells, and the room. The room is
// lent, since nothing here has a heap: so the reply is its front, and a length.
pub fn write_reply(cells: &[u8], room: &mut [u8]) -> usize
    requires cells_len_bound { length cells.now ≤ 40 }
    requires in_bounds { 84 ≤ length room.old }
    ensures value { result ≡ length (reply_of cells.now) }
    ensures room_after { room.new ≡ at_front (reply_of cells.now) room.old }
{
    let at = write_body(cells, room);
    let c = checksum(&room[..at]);
    put(room, at, [VALUE, c, VALUE, 0]);
    at + 4
}

// A group before the checksum's: cells, or the end of them.
#[tactic(auto, unfolding(crate::specs::Group::group_of))]
fn group_of(a: u8, b: u8, c: u8, d: u8) -> Group
    ensures { result ≡ group_of a b c d }
{
    match (a, b, c, d) {
        (VALUE, _, VALUE, _) => Group::Cells,
        (VALUE, _, NO_VALUE, NOT_READABLE) => Group::End(1),
        (NO_VALUE, NOT_READABLE, NO_VALUE, NOT_READABLE) => Group::End(0),
        _ => Group::Bad,
    }
}

// The group after 20 groups or an end group: the checksum's, though it looks like cells.
fn last_of(a: u8, b: u8, c: u8, d: u8) -> Group
    ensures { result ≡ checksum_group a b c d }
{
    match (a, b, c, d) {
        (VALUE, _, VALUE, 0) => Group::Checksum(b),
        _ => Group::Bad,
    }
}

// Reads the group at a place of a reply. `closes` says that 20 groups or an end group stand before
// it: then it is the checksum's, and not a byte stands behind it. The bytes are named by their places, which
// the two tests before have shown to be there.
pub fn group_at(reply: &[u8], at: usize, closes: bool) -> Group
    ensures { result ≡ group_at closes (drop at reply.now) }
{
    if reply.len() < 4 {
        return Group::Bad;
    }
    let last = reply.len() - 4;
    if last < at {
        return Group::Bad;
    }
    if closes {
        if at < last {
            return Group::Bad;
        }
        return last_of(reply[at], reply[at + 1], reply[at + 2], reply[at + 3]);
    }
    group_of(reply[at], reply[at + 1], reply[at + 2], reply[at + 3])
}
