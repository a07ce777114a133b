// Reads what a module sends for a bank. The promise, in specs/ReadBank.antt, speaks of the language
// of replies and not of this way through the bytes: the cells are those whose reply the bytes are.
//
// Nothing is written before all is judged: `judge` only looks, `copy_cells` only writes.
ghost use Rattle.std.specs.Prelude.{true, List, ◌++◌, ◌≡◌, ℕ, ◌+◌, ◌≤◌, length, take, drop};
ghost use Rattle.bank.specs.Reply.{data_of};
ghost use Rattle.bank.specs.Group.{group_at};
ghost use Rattle.host.specs.ReadBank.{Judged, ReadBankPromise, closed_of, read_as};

use bank::Group;
use refusals::Refusal;

// Judges the group at a place behind which a reply of n cells must end: the checksum's, and nothing
// more.
fn closed(reply: &[u8], n: usize, at: usize) -> Result<usize, Refusal>
    ensures { read_as result ≡ closed_of n (take at reply.now) (group_at true (drop at reply.now)) }
{
    let Group::Checksum(c) = bank::group_at(reply, at, true) else {
        return Err(Refusal::Shape);
    };
    if c == bank::checksum(&reply[..at]) {
        Ok(n)
    } else {
        Err(Refusal::Checksum)
    }
}

// Says how many cells a reply has, or why it is refused. Two cells a group, and at most 20 groups
// before the checksum's: behind 40 cells nothing else can come.
fn judge(reply: &[u8]) -> Result<usize, Refusal>
    ensures { (cells : List ℕ) × Judged reply.now (read_as result) cells }
{
    for n in (0..bank::MOST_CELLS).step_by(2) {
        let group = bank::group_at(reply, n * 2, false);
        let Group::Cells = group else {
            let Group::End(more) = group else {
                return Err(Refusal::Shape);
            };
            return closed(reply, n + more, n * 2 + 4);
        };
    }
    closed(reply, bank::MOST_CELLS, bank::MOST_CELLS * 2)
}

// Copies the first n data bytes to the front of the room, and leaves the rest of it alone.
fn copy_cells(reply: &[u8], n: usize, room: &mut [u8])
    requires { (n + n ≤ length reply.now) × (n ≤ length room.old) }
    ensures { room.new ≡ take n (data_of reply.now) ++ drop n room.old }
{
    for (k, pair) in reply[..n + n].chunks_exact(2).enumerate() {
        room[k] = pair[1];
    }
}

// Reads a bank's reply: gives the number of cells and writes them to the front of the room, whose
// other bytes stay. Refuses a room under 40 bytes (4), bytes that are not of the shape (9) and a wrong
// checksum (10), and leaves the room as it was then. The room is lent, since nothing here has a heap.
pub fn read_bank(reply: &[u8], room: &mut [u8]) -> Result<usize, Refusal>
    ensures { ReadBankPromise reply.now room.old (read_as result) room.new }
{
    if room.len() < bank::MOST_CELLS {
        return Err(Refusal::Lengths);
    }
    let n = judge(reply)?;
    copy_cells(reply, n, room);
    Ok(n)
}
