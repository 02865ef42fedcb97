ghost use Rattle.std.specs.Prelude.{◌≡◌, ◌^◌, ◌<◌, ◌≤◌};
ghost use Rattle.core_words.specs.Values.{add_of, bits_of, choose, join_of, not_of, one_if, sub_of};
ghost use Rattle.hw_pool.specs.Nodes.{IsWidth};

use core_words::mask_of;

/// Each of the bits of a number turned over.
#[inline]
pub(crate) fn turned(width: u32, a: u64) -> u64
    requires { IsWidth width }
    ensures { result ≡ not_of width a }
{
    mask_of(width).saturating_sub(a)
}

/// The sum of two numbers, modulo 2 ^ `width`.
#[inline]
pub(crate) fn sum(width: u32, a: u64, b: u64) -> u64
    requires { IsWidth width }
    ensures { result ≡ add_of width a b }
{
    a.wrapping_add(b) & mask_of(width)
}

/// The difference of two numbers, modulo 2 ^ `width`.
#[inline]
pub(crate) fn difference(width: u32, a: u64, b: u64) -> u64
    requires wide { IsWidth width }
    requires below { b < 2 ^ width }
    ensures { result ≡ sub_of width a b }
{
    a.wrapping_sub(b) & mask_of(width)
}

/// A number above another of `width` bits.
#[inline]
pub(crate) fn joined(width: u32, a: u64, b: u64) -> u64
    requires wide { width < 64 }
    requires fits { join_of width a b < 2 ^ 64 }
    ensures { result ≡ join_of width a b }
{
    (a << width).wrapping_add(b)
}

/// Bits of a number, from a higher to a lower place.
#[inline]
pub(crate) fn part(a: u64, high: u32, low: u32) -> u64
    requires ordered { low ≤ high }
    requires within { high < 64 }
    ensures { result ≡ bits_of a high low }
{
    (a >> low) & mask_of(high + 1 - low)
}

/// The number of a truth value.
#[inline]
pub(crate) fn truth(test: bool) -> u64
    ensures { result ≡ one_if test }
{
    if test { 1 } else { 0 }
}

/// The first number where the condition is 1, else the second.
#[inline]
pub(crate) fn chosen(c: u64, a: u64, b: u64) -> u64
    ensures { result ≡ choose c a b }
{
    if c == 1 { a } else { b }
}
