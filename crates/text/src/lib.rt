// Bytes as text: two hexadecimal digits, upper case, as the paper writes them.
#![tactic(auto)]

ghost use Rattle.std.specs.Prelude.{◌≡◌, ◌<◌};
ghost use Rattle.text.specs.Text.{digit_of, hex_of};

fn digit(value: u8) -> u8
    requires { value < 16 }
    ensures { result ≡ digit_of value }
{
    if value < 10 {
        b'0' + value
    } else {
        b'A' + (value - 10)
    }
}

// The two digits of a byte, the high one first. By hand, since it gives the two bytes (`hex_of`) where
// std's `{:02X}` writes text into a formatter.
pub fn hex(byte: u8) -> [u8; 2]
    ensures { result ≡ hex_of byte }
{
    [digit(byte / 16), digit(byte % 16)]
}
