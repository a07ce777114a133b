// The checksum of a bank reply: x^8 + x^5 + x^4 + 1, start 0, low bit first, constant 0x8C.
//
// Every promise is an equation with specs/Crc.antt. C-04: "Use a table of 256 bytes; the checksum's
// promise stays as it is." Laws: proofs/Laws.antt (over appended lists, over data and its checksum,
// its room), and proofs/Lanes.antt (why a long message may be summed in parts).
#![tactic(auto)]

ghost use Rattle.std.specs.Prelude.{ℕ, ◌*◌, ◌%◌, ◌<◌, ◌≡◌, length, get_or};
ghost use Rattle.crc.specs.Crc.{crc_bit, crc_byte, crc_from, crc_of};

// The powers x^5, x^4 and 1 with the low bit first: x^7 would be bit 0, and 1 is bit 7.
const CONSTANT: u8 = 0x8C;

// Entry i is what eight bit steps make of i; sixteen entries a row.
const TABLE: [u8; 256] = *b"\
    \x00\x5E\xBC\xE2\x61\x3F\xDD\x83\xC2\x9C\x7E\x20\xA3\xFD\x1F\x41\
    \x9D\xC3\x21\x7F\xFC\xA2\x40\x1E\x5F\x01\xE3\xBD\x3E\x60\x82\xDC\
    \x23\x7D\x9F\xC1\x42\x1C\xFE\xA0\xE1\xBF\x5D\x03\x80\xDE\x3C\x62\
    \xBE\xE0\x02\x5C\xDF\x81\x63\x3D\x7C\x22\xC0\x9E\x1D\x43\xA1\xFF\
    \x46\x18\xFA\xA4\x27\x79\x9B\xC5\x84\xDA\x38\x66\xE5\xBB\x59\x07\
    \xDB\x85\x67\x39\xBA\xE4\x06\x58\x19\x47\xA5\xFB\x78\x26\xC4\x9A\
    \x65\x3B\xD9\x87\x04\x5A\xB8\xE6\xA7\xF9\x1B\x45\xC6\x98\x7A\x24\
    \xF8\xA6\x44\x1A\x99\xC7\x25\x7B\x3A\x64\x86\xD8\x5B\x05\xE7\xB9\
    \x8C\xD2\x30\x6E\xED\xB3\x51\x0F\x4E\x10\xF2\xAC\x2F\x71\x93\xCD\
    \x11\x4F\xAD\xF3\x70\x2E\xCC\x92\xD3\x8D\x6F\x31\xB2\xEC\x0E\x50\
    \xAF\xF1\x13\x4D\xCE\x90\x72\x2C\x6D\x33\xD1\x8F\x0C\x52\xB0\xEE\
    \x32\x6C\x8E\xD0\x53\x0D\xEF\xB1\xF0\xAE\x4C\x12\x91\xCF\x2D\x73\
    \xCA\x94\x76\x28\xAB\xF5\x17\x49\x08\x56\xB4\xEA\x69\x37\xD5\x8B\
    \x57\x09\xEB\xB5\x36\x68\x8A\xD4\x95\xCB\x29\x77\xF4\xAA\x48\x16\
    \xE9\xB7\x55\x0B\x88\xD6\x34\x6A\x2B\x75\x97\xC9\x4A\x14\xF6\xA8\
    \x74\x2A\xC8\x96\x15\x4B\xA9\xF7\xB6\xE8\x0A\x54\xD7\x89\x6B\x35\
";

// This many zero bytes leave every running value as it was.
const PERIOD: usize = 127;

// A long message is summed in this many parts side by side, so that no lookup waits for another
// part's; `in_lanes` has a variable for each.
const LANES: usize = 4;

// One bit further: the lowest bit goes out, and if it was 1 the constant comes in.
fn bit(crc: u8) -> u8
    ensures { result ≡ crc_bit crc }
{
    if crc % 2 == 1 {
        crc / 2 ^ CONSTANT
    } else {
        crc / 2
    }
}

// One byte further, bit by bit: for a byte alone no table is laid out.
pub fn byte(crc: u8, value: u8) -> u8
    ensures { result ≡ crc_byte crc value }
{
    bit(bit(bit(bit(bit(bit(bit(bit(crc ^ value))))))))
}

// The table. To index a constant copies all of it to the stack each time: take the table once, before
// a loop, and lend it.
pub fn table() -> [u8; 256]
    ensures { (i : ℕ) → i < 256 → get_or result i 0 ≡ crc_byte 0 i }
{
    TABLE
}

// One byte further, by the table that `table` gives.
pub fn byte_by_table(table: &[u8; 256], crc: u8, value: u8) -> u8
    requires { (i : ℕ) → i < 256 → get_or table.now i 0 ≡ crc_byte 0 i }
    ensures { result ≡ crc_byte crc value }
{
    table[usize::from(crc ^ value)]
}

// Byte after byte.
fn in_turn(crc: u8, bytes: &[u8]) -> u8
    ensures { result ≡ crc_from crc bytes.now }
{
    let table = table();
    let mut running = crc;
    for &value in bytes {
        running = byte_by_table(&table, running, value);
    }
    running
}

// Four lanes of one length. Each is summed as if the bytes behind it were zeros: they are whole
// periods, and so many zeros change no sum. Exclusive or joins the sums.
fn in_lanes(crc: u8, bytes: &[u8], lane: usize) -> u8
    requires bytes_len { length bytes.now ≡ lane * 4 }
    requires lane_value { lane % 127 ≡ 0 }
    ensures { result ≡ crc_from crc bytes.now }
{
    let table = table();
    let mut a = crc;
    let mut b: u8 = 0;
    let mut c: u8 = 0;
    let mut d: u8 = 0;
    // One index for four places: zips of four slices, paired three deep, are no plainer.
    for i in 0..lane {
        a = byte_by_table(&table, a, bytes[i]);
        b = byte_by_table(&table, b, bytes[lane + i]);
        c = byte_by_table(&table, c, bytes[lane * 2 + i]);
        d = byte_by_table(&table, d, bytes[lane * 3 + i]);
    }
    a ^ (b ^ (c ^ d))
}

// Goes on from a running value over some bytes: a long message may be given in blocks. What the lanes
// leave over (all of a short message) comes first.
pub fn continued(crc: u8, bytes: &[u8]) -> u8
    ensures { result ≡ crc_from crc bytes.now }
{
    let lane = bytes.len() / (LANES * PERIOD) * PERIOD;
    let head = bytes.len() - lane * LANES;
    let running = in_turn(crc, &bytes[..head]);
    in_lanes(running, &bytes[head..], lane)
}

// The checksum of some bytes; of none it is 0.
pub fn checksum(bytes: &[u8]) -> u8
    ensures { result ≡ crc_of bytes.now }
{
    continued(0, bytes)
}
