// What a locomotive is told: speeds, load, address, functions and control bits. A command's function
// takes the record by value and gives it back with that command done; a field that the command does
// not speak of stays as it was. Packets are not read here: what a function is handed is decoded.
#![tactic(auto)]

ghost use Rattle.std.specs.Prelude.{◌≡◌, true, ◌+◌, ◌^◌, ◌≤◌, ◌<◌};
ghost use Rattle.bits.specs.Bits.{part_of};
ghost use Rattle.drive.specs.Drive.{restarted, with_actual, with_wanted, with_load, with_address, with_functions, with_control};
ghost use Rattle.drive.specs.Drive.{drive_possible, functions_on};

#[derive(Clone, Copy)]
pub struct Drive {
    // The speeds as they came, bit 7 forward.
    pub actual: u8,
    pub wanted: u8,
    // 0 to 127.
    pub load: u8,
    pub address: u16,
    // Fn is bit n, F0 to F28.
    pub functions: u32,
    // As last stored: bit 0 the buffer's; bit 1 was 0 to put F0 to F28 off, 1 to leave them.
    pub control: u8,
}

// What the bit at a place of the functions counts. This and the next are `weight` and `part_of` of
// `bits` for a word of 32 bits: a trait over both widths would be longer than these two lines.
fn weight(place: u8) -> u32
    requires { place < 32 }
    ensures { result ≡ 2 ^ place }
{
    1 << place
}

// The functions of one group, `width` of them from F`first` on, the lowest in bit 0.
fn group_of(functions: u32, first: u8, width: u8) -> u32
    requires { first + width ≤ 29 }
    ensures { result ≡ part_of functions first width }
{
    functions / weight(first) % weight(width)
}

impl Drive {
    pub const MAX_LOAD: u8 = 127;
    // How many functions there are: F0 to F28.
    pub const FUNCTIONS: u8 = 29;
    // Both control bits set.
    pub const CONTROL: u8 = 3;

    // What a restart leaves: all 0, and both control bits 1.
    pub fn new() -> Self
        ensures { result ≡ restarted }
    {
        Self {
            actual: 0,
            wanted: 0,
            load: 0,
            address: 0,
            functions: 0,
            control: Self::CONTROL,
        }
    }

    // Stores the actual speed, whole.
    pub fn with_actual(mut self, speed: u8) -> Self
        ensures { result ≡ with_actual self speed }
    {
        self.actual = speed;
        self
    }

    // Stores the wanted speed, whole.
    pub fn with_wanted(mut self, speed: u8) -> Self
        ensures { result ≡ with_wanted self speed }
    {
        self.wanted = speed;
        self
    }

    // Stores a load. A load command with bit 7 set is none: it never comes here.
    pub fn with_load(mut self, load: u8) -> Self
        requires { load < 128 }
        ensures { result ≡ with_load self load }
    {
        self.load = load;
        self
    }

    // Stores the address of a low half and the high half that follows it.
    pub fn with_address(mut self, low: u8, high: u8) -> Self
        ensures { result ≡ with_address self low high }
    {
        self.address = u16::from_le_bytes([low, high]);
        self
    }

    // Switches one group of functions: `width` of them from F`first` on, the lowest by bit 0 of `on`.
    // Every other function stays as it was. Two numbers, and no struct of them: two functions take them, and
    // docs/RULES.md names this one.
    pub fn with_functions(mut self, first: u8, width: u8, on: u8) -> Self
        requires width_bound { first + width ≤ 29 }
        requires on_bound { on < 2 ^ width }
        ensures { result ≡ with_functions self first width on }
    {
        let one = weight(first);
        let old = group_of(self.functions, first, width);
        self.functions = self.functions - old * one + u32::from(on) * one;
        self
    }

    // Stores both control bits. Bit 1: 0 puts F0 to F28 off, at this command; 1 leaves them as they
    // were.
    pub fn with_control(mut self, control: u8) -> Self
        requires { control < 4 }
        ensures { result ≡ with_control self control }
    {
        self.control = control;
        if bits::bit_at(control, 1) == 0 {
            self.functions = 0;
        }
        self
    }

    // Whether a run of commands can have left this record: drive's part of refusal 12.
    #[tactic(auto, unfolding(crate::specs::Drive::drive_possible))]
    pub fn possible(self) -> bool
        ensures { result ≡ drive_possible self }
    {
        self.load <= Self::MAX_LOAD
            && self.functions < weight(Self::FUNCTIONS)
            && self.control <= Self::CONTROL
    }

    // How many of F0 to F28 are on (C-05).
    pub fn functions_on(self) -> u8
        requires { drive_possible self ≡ true }
        ensures { result ≡ functions_on self }
    {
        ones::of_word(self.functions) as u8
    }
}
