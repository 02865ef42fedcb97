use core_words::{bits, mask_of, put_le, sext, word_le, wrap_add};

/// Whether each call has its value.
pub fn values_are_right() -> bool {
    let found = [
        bits(0x0050_0093, 31, 20),
        bits(0x89ab_cdef, 31, 0),
        bits(0x8000_0000, 31, 31),
        bits(0x89ab_cdef, 11, 8),
        sext(0x7ff, 12),
        sext(0x800, 12),
        sext(0xffff_f001, 12),
        sext(1, 1),
        sext(0x8000_0000, 32),
        wrap_add(0xffff_ffff, 2),
        wrap_add(0x7fff_ffff, 1),
        word_le(&[9, 0x93, 0x00, 0x50, 0xff, 9], 1),
    ];
    let wanted = [
        5,
        0x89ab_cdef,
        1,
        0xd,
        0x7ff,
        0xffff_f800,
        1,
        0xffff_ffff,
        0x8000_0000,
        1,
        0x8000_0000,
        0xff50_0093,
    ];
    let masks = [mask_of(1), mask_of(32), mask_of(64)];
    let mut bytes = [9; 6];
    put_le(&mut bytes, 1, 0xff50_0093);
    found == wanted
        && masks == [1, 0xffff_ffff, 0xffff_ffff_ffff_ffff]
        && bytes == [9, 0x93, 0x00, 0x50, 0xff, 9]
}
