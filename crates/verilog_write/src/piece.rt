ghost use Rattle.std.specs.Prelude.{◌≡◌, ◌<◌, ◌++◌, ◌-◌, ◌^◌, ◌≤◌, [], OnOk, codes, decimal, drop, false};
ghost use Rattle.std.specs.Fmt.{digit_glyph, digits};
ghost use Rattle.verilog_netlist.specs.Text.{joined, range_pieces};
ghost use Rattle.verilog_write.specs.Sections.{cells_pieces};

use itoa::Buffer;
use std::alloc::AllocError;

/// Appends a text.
pub(crate) fn push_text(out: &mut Vec<u8>, text: &str) -> Result<(), AllocError>
    ensures { OnOk result (out.new.items ≡ out.old.items ++ text.now) }
{
    out.extend_from_slice(text.as_bytes())
}

/// Appends a number in decimal.
pub(crate) fn push_number(out: &mut Vec<u8>, number: u32) -> Result<(), AllocError>
    ensures { OnOk result (out.new.items ≡ out.old.items ++ decimal number) }
{
    let mut digits = Buffer::new();
    push_text(out, digits.format(number))
}

/// Appends a text, and behind it a literal: its width, `'h` and its value in hexadecimal (clause 3.5.1).
pub(crate) fn push_literal(
    out: &mut Vec<u8>,
    before: &str,
    width: u32,
    value: u64,
) -> Result<(), AllocError>
    ensures { OnOk result (out.new.items ≡ out.old.items ++ (before.now ++ (decimal width ++ (codes "'h" ++ digits 16 false value)))) }
{
    push_text(out, before)?;
    push_number(out, width)?;
    push_text(out, "'h")?;
    push_hex(out, value)
}

/// Appends a number in hexadecimal, without leading zeros.
fn push_hex(out: &mut Vec<u8>, number: u64) -> Result<(), AllocError>
    ensures { OnOk result (out.new.items ≡ out.old.items ++ digits 16 false number) }
{
    let mut buffer = [0u8; 16];
    let start = hex_digits(number, &mut buffer);
    out.extend_from_slice(&buffer[start..])
}

/// Writes the hexadecimal digits of a number at the end of `buffer`, and answers where they begin.
fn hex_digits(number: u64, buffer: &mut [u8; 16]) -> usize
    ensures within { result ≤ 16 }
    ensures digits { drop result buffer.new ≡ digits 16 false number }
{
    let mut start = 16;
    let mut rest = number;
    while start > 1 {
        start -= 1;
        buffer[start] = hex_digit((rest % 16) as u8);
        rest /= 16;
        if rest == 0 {
            return start;
        }
    }
    buffer[0] = hex_digit((rest % 16) as u8);
    0
}

/// The byte of a digit: 0 to 9, and a to f.
fn hex_digit(digit: u8) -> u8
    requires { digit < 16 }
    ensures { result ≡ digit_glyph false digit }
{
    if digit < 10 {
        b'0' + digit
    } else {
        b'a' + (digit - 10)
    }
}

/// Appends a text, and behind it two numbers with a colon between them and a bracket behind them.
pub(crate) fn push_bounds(
    out: &mut Vec<u8>,
    before: &str,
    first: u32,
    second: u32,
) -> Result<(), AllocError>
    ensures { OnOk result (out.new.items ≡ out.old.items ++ (before.now ++ (decimal first ++ (codes ":" ++ (decimal second ++ codes "]"))))) }
{
    push_text(out, before)?;
    push_number(out, first)?;
    push_text(out, ":")?;
    push_number(out, second)?;
    push_text(out, "]")
}

/// Appends a text, and behind it the range of a width.
pub(crate) fn push_range(out: &mut Vec<u8>, before: &str, width: u32) -> Result<(), AllocError>
    requires { 1 ≤ width }
    ensures { OnOk result (out.new.items ≡ out.old.items ++ (before.now ++ joined (range_pieces width []) [])) }
{
    push_text(out, before)?;
    push_bounds(out, " [", width - 1, 0)
}

/// Appends the range of 2 ^ `bits` cells.
pub(crate) fn push_cells(out: &mut Vec<u8>, bits: u32) -> Result<(), AllocError>
    requires { bits ≤ 16 }
    ensures { OnOk result (out.new.items ≡ out.old.items ++ joined (cells_pieces bits) []) }
{
    push_bounds(out, " [", 0, last_cell(bits))
}

/// The number of the last of 2 ^ `bits` cells.
fn last_cell(bits: u32) -> u32
    requires { bits ≤ 16 }
    ensures { result ≡ 2 ^ bits - 1 }
{
    (1 << bits) - 1
}
