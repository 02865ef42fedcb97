ghost use Rattle.std.specs.Prelude.{◌≡◌, ◌<◌};
ghost use Rattle.std.specs.Char.{digit_char};
ghost use Rattle.verilog_tree.specs.Hex.{hex8};

/// The eight hexadecimal digits of a number, the highest first.
pub fn hex_digits(number: u32) -> [u8; 8]
    ensures { result ≡ hex8 number }
{
    [
        digit_byte(number / 0x1000_0000 % 16),
        digit_byte(number / 0x100_0000 % 16),
        digit_byte(number / 0x10_0000 % 16),
        digit_byte(number / 0x1_0000 % 16),
        digit_byte(number / 0x1000 % 16),
        digit_byte(number / 0x100 % 16),
        digit_byte(number / 0x10 % 16),
        digit_byte(number % 16),
    ]
}

/// The byte of a digit: 0 to 9, and a to f.
fn digit_byte(digit: u32) -> u8
    requires { digit < 16 }
    ensures { result ≡ digit_char digit }
{
    if digit < 10 {
        b'0' + digit as u8
    } else {
        b'a' + (digit as u8 - 10)
    }
}
