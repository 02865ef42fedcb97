ghost use Rattle.std.specs.Prelude.{◌≡◌, ℕ, ◌≤◌, max};
ghost use Rattle.hw_pool.specs.Meaning.{Env};
ghost use Rattle.hw_pool.specs.Scope.{Scope};
ghost use Rattle.hw_gates.specs.Places.{Has, IsIn, Step, value_in};
ghost use Rattle.hw_words.specs.Halves.{equal_of, high_equal, high_less, less_of, low_equal, low_less};

use hw_expr::Net;
use hw_gates::{and, cat, eq, lit, or, slice, sub};
use hw_pool::Pool;

/// One bit: 1 where the high half of `a` is less.
#[tactic(auto, using(hw_gates::proofs::Plain::plain), unfolding(crate::specs::Halves::high_less))]
fn lower_high(pool: &mut Pool, signed: Net, a: Net, b: Net) -> Net
    requires spare { 10 ≤ pool.old.spare }
    requires signed { Has pool.old signed }
    requires a { Has pool.old a }
    requires b { Has pool.old b }
    requires widths { (signed.width ≡ 1) × (a.width ≡ 32) × (b.width ≡ 32) }
    ensures value { (env : Env) → value_in env pool.new result ≡ high_less (value_in env pool.old signed) (value_in env pool.old a) (value_in env pool.old b) }
    ensures net { Has pool.new result }
    ensures scope { (s : Scope) → IsIn s pool.old signed → IsIn s pool.old a → IsIn s pool.old b → IsIn s pool.new result }
    ensures width { result.width ≡ 1 }
    ensures level { result.level ≤ max (max signed.level a.level) b.level }
    ensures step { Step pool.old pool.new 10 }
{
    let sign_a = slice(pool, a, 31, 31);
    let sign_b = slice(pool, b, 31, 31);
    let above_a = and(pool, signed, sign_a);
    let above_b = and(pool, signed, sign_b);
    let half_a = slice(pool, a, 31, 16);
    let half_b = slice(pool, b, 31, 16);
    let wide_a = cat(pool, above_a, half_a);
    let wide_b = cat(pool, above_b, half_b);
    let difference = sub(pool, wide_a, wide_b);
    slice(pool, difference, 16, 16)
}

/// One bit: 1 where the low half of `a` is less.
#[tactic(auto, unfolding(crate::specs::Halves::low_less))]
fn lower_low(pool: &mut Pool, a: Net, b: Net) -> Net
    requires spare { 7 ≤ pool.old.spare }
    requires a { Has pool.old a }
    requires b { Has pool.old b }
    requires widths { (a.width ≡ 32) × (b.width ≡ 32) }
    ensures value { (env : Env) → value_in env pool.new result ≡ low_less (value_in env pool.old a) (value_in env pool.old b) }
    ensures net { Has pool.new result }
    ensures scope { (s : Scope) → IsIn s pool.old a → IsIn s pool.old b → IsIn s pool.new result }
    ensures width { result.width ≡ 1 }
    ensures level { result.level ≤ max a.level b.level }
    ensures step { Step pool.old pool.new 7 }
{
    let zero = lit(pool, 1, 0);
    let half_a = slice(pool, a, 15, 0);
    let half_b = slice(pool, b, 15, 0);
    let wide_a = cat(pool, zero, half_a);
    let wide_b = cat(pool, zero, half_b);
    let difference = sub(pool, wide_a, wide_b);
    slice(pool, difference, 16, 16)
}

/// One bit: 1 where the high halves are equal.
#[tactic(auto, unfolding(crate::specs::Halves::high_equal))]
fn same_high(pool: &mut Pool, a: Net, b: Net) -> Net
    requires spare { 3 ≤ pool.old.spare }
    requires a { Has pool.old a }
    requires b { Has pool.old b }
    requires widths { (a.width ≡ 32) × (b.width ≡ 32) }
    ensures value { (env : Env) → value_in env pool.new result ≡ high_equal (value_in env pool.old a) (value_in env pool.old b) }
    ensures net { Has pool.new result }
    ensures scope { (s : Scope) → IsIn s pool.old a → IsIn s pool.old b → IsIn s pool.new result }
    ensures width { result.width ≡ 1 }
    ensures level { result.level ≤ max a.level b.level }
    ensures step { Step pool.old pool.new 3 }
{
    let half_a = slice(pool, a, 31, 16);
    let half_b = slice(pool, b, 31, 16);
    eq(pool, half_a, half_b)
}

/// One bit: 1 where the low halves are equal.
#[tactic(auto, unfolding(crate::specs::Halves::low_equal))]
fn same_low(pool: &mut Pool, a: Net, b: Net) -> Net
    requires spare { 3 ≤ pool.old.spare }
    requires a { Has pool.old a }
    requires b { Has pool.old b }
    requires widths { (a.width ≡ 32) × (b.width ≡ 32) }
    ensures value { (env : Env) → value_in env pool.new result ≡ low_equal (value_in env pool.old a) (value_in env pool.old b) }
    ensures net { Has pool.new result }
    ensures scope { (s : Scope) → IsIn s pool.old a → IsIn s pool.old b → IsIn s pool.new result }
    ensures width { result.width ≡ 1 }
    ensures level { result.level ≤ max a.level b.level }
    ensures step { Step pool.old pool.new 3 }
{
    let half_a = slice(pool, a, 15, 0);
    let half_b = slice(pool, b, 15, 0);
    eq(pool, half_a, half_b)
}

/// One bit: 1 where `a` is less than `b`, both of 32 bits, as signed numbers where the one bit `signed` is 1.
#[tactic(auto, unfolding(crate::specs::Halves::less_of))]
pub fn lower(pool: &mut Pool, signed: Net, a: Net, b: Net) -> Net
    requires spare { 22 ≤ pool.old.spare }
    requires signed { Has pool.old signed }
    requires a { Has pool.old a }
    requires b { Has pool.old b }
    requires widths { (signed.width ≡ 1) × (a.width ≡ 32) × (b.width ≡ 32) }
    ensures value { (env : Env) → value_in env pool.new result ≡ less_of (value_in env pool.old signed) (value_in env pool.old a) (value_in env pool.old b) }
    ensures net { Has pool.new result }
    ensures scope { (s : Scope) → IsIn s pool.old signed → IsIn s pool.old a → IsIn s pool.old b → IsIn s pool.new result }
    ensures width { result.width ≡ 1 }
    ensures level { result.level ≤ max (max signed.level a.level) b.level }
    ensures step { Step pool.old pool.new 22 }
{
    let high = lower_high(pool, signed, a, b);
    let equal = same_high(pool, a, b);
    let low = lower_low(pool, a, b);
    let both = and(pool, equal, low);
    or(pool, high, both)
}

/// One bit: 1 where two nets of 32 bits are equal.
#[tactic(auto, unfolding(crate::specs::Halves::equal_of))]
pub fn same(pool: &mut Pool, a: Net, b: Net) -> Net
    requires spare { 7 ≤ pool.old.spare }
    requires a { Has pool.old a }
    requires b { Has pool.old b }
    requires widths { (a.width ≡ 32) × (b.width ≡ 32) }
    ensures value { (env : Env) → value_in env pool.new result ≡ equal_of (value_in env pool.old a) (value_in env pool.old b) }
    ensures net { Has pool.new result }
    ensures scope { (s : Scope) → IsIn s pool.old a → IsIn s pool.old b → IsIn s pool.new result }
    ensures width { result.width ≡ 1 }
    ensures level { result.level ≤ max a.level b.level }
    ensures step { Step pool.old pool.new 7 }
{
    let high = same_high(pool, a, b);
    let low = same_low(pool, a, b);
    and(pool, high, low)
}
