ghost use Rattle.std.specs.Prelude.{◌≡◌, ◌≤◌, ◌-◌, ◌^◌};
ghost use Rattle.core_words.specs.Values.{add_of, bits_of};
ghost use Rattle.core_words.specs.Fields.{sext_of};

/// Bits `hi` to `lo` of a 32-bit number, as a number of `hi + 1 - lo` bits. Bit 0 is the lowest.
pub fn bits(n: u32, hi: u32, lo: u32) -> u32
    requires ordered { lo ≤ hi }
    requires within { hi ≤ 31 }
    ensures { result ≡ bits_of n hi lo }
{
    (u64::from(n >> lo) & mask_of(hi + 1 - lo)) as u32
}

/// The low `width` bits of a number, from 1 to 32, as 32 bits with the sign in the highest of them.
pub fn sext(n: u32, width: u32) -> u32
    requires least { 1 ≤ width }
    requires most { width ≤ 32 }
    ensures { result ≡ sext_of n width }
{
    let low = bits(n, width - 1, 0);
    let sign = 1 << (width - 1);
    if low < sign {
        return low;
    }
    // A set sign bit counts as minus its place value.
    (low - sign).wrapping_sub(sign)
}

/// The sum of two 32-bit numbers, modulo 2 ^ 32.
pub fn wrap_add(a: u32, b: u32) -> u32
    ensures { result ≡ add_of 32 a b }
{
    a.wrapping_add(b)
}

/// The greatest number of `width` bits, from 1 to 64.
pub fn mask_of(width: u32) -> u64
    requires least { 1 ≤ width }
    requires most { width ≤ 64 }
    ensures { result ≡ 2 ^ width - 1 }
{
    u64::MAX >> (64 - width)
}
