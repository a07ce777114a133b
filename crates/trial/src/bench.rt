// What a scenario has come to.
ghost use Rattle.std.specs.Prelude.{◌≡◌, ◌≤◌, length, take};

use board::Module;
use cells::Sheets;

// Why the program stops at a line.
#[derive(Clone, Copy)]
pub enum Cause {
    NotAStatement,
    TooLong,
    AfterAnEdge,
}

// What gathered edges are of their piece.
#[derive(Clone, Copy, PartialEq, Eq)]
pub enum Part {
    // More of its edges come.
    Block,
    // The piece ends with them.
    End,
}

#[derive(Clone, Copy)]
pub struct Bench {
    pub kept: Module,
    pub sheet: [u8; 300],
    pub fixed: [u8; 60],
    // How many bytes of each buffer are lent: fewer or more than there have to be, as the scenario says, so
    // that these are no lengths of slices.
    pub store_length: usize,
    pub sheet_length: usize,
    pub states_length: usize,
    pub room_length: usize,
    pub fixed_length: usize,
    // The edges that are gathered and not fed yet, at the front of two arrays of the program (fixed memory, and
    // two lists as `feed` takes them), and how many of the scenario came before them.
    pub gathered: usize,
    pub before: u64,
    // They are to be fed now, as this part of their piece.
    pub due: Option<Part>,
    // These two are flags: each may hold with the other and without it. The rest of this piece is dropped.
    pub dropped: bool,
    // The next feed of edges is lent one level fewer.
    pub uneven: bool,
    // Why the program stops, where it does.
    pub cause: Option<Cause>,
}

// A buffer with these bytes at its front, and 0 behind them.
fn begun_with<const N: usize>(front: &[u8]) -> [u8; N]
    requires { length front.now ≤ N }
{
    let mut buffer = [0u8; N];
    buffer[..front.len()].copy_from_slice(front);
    buffer
}

impl Bench {
    pub fn new() -> Bench {
        Bench {
            kept: Module::new(),
            sheet: begun_with(&lines::sizes()),
            fixed: begun_with(&lines::fixed()),
            store_length: 10240,
            sheet_length: 256,
            states_length: 4096,
            room_length: 84,
            fixed_length: 40,
            gathered: 0,
            before: 0,
            due: None,
            dropped: false,
            uneven: false,
            cause: None,
        }
    }

    pub fn with_record(mut self, kept: Module) -> Bench {
        self.kept = kept;
        self
    }

    pub fn stopped(mut self, cause: Cause) -> Bench {
        self.cause = Some(cause);
        self
    }

    // The sheets, as long as they are lent.
    pub fn sheets(&self) -> Sheets<'_, '_>
        ensures sizes { result.sizes.now ≡ take self.now.sheet_length self.now.sheet }
        ensures fixed { result.fixed.now ≡ take self.now.fixed_length self.now.fixed }
    {
        Sheets {
            sizes: &self.sheet[..self.sheet_length.min(300)],
            fixed: &self.fixed[..self.fixed_length.min(60)],
        }
    }

    // Whether the scenario has had an edge.
    pub fn has_edges(self) -> bool {
        self.gathered != 0 || self.before != 0
    }
}
