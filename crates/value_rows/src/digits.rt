use hex_text::hex_digits;

const DIGITS: &[(u32, &str)] = &[
    (0, "00000000"),
    (0x8000_0000, "80000000"),
    (0x0123_4567, "01234567"),
    (0x89ab_cdef, "89abcdef"),
    (0xffff_ffff, "ffffffff"),
];

/// Whether each number has its eight digits.
pub fn digits_are_right() -> bool {
    for (number, text) in DIGITS {
        if hex_digits(*number).as_slice() != text.as_bytes() {
            return false;
        }
    }
    true
}
