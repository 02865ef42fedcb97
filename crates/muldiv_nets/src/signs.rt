ghost use Rattle.std.specs.Prelude.{◌≡◌, ℕ, ◌≤◌};
ghost use Rattle.core_words.specs.Values.{bits_of, choose};
ghost use Rattle.hw_pool.specs.Meaning.{Env};
ghost use Rattle.hw_pool.specs.Scope.{Scope};
ghost use Rattle.hw_gates.specs.Places.{Is, IsIn, Step, value_in};
ghost use Rattle.muldiv_law.specs.Steps.{division_signed, first_signed, fixed, half_of, inverts, last_inverts, negated, second_signed, sign_of, turns};

use hw_expr::Net;
use hw_gates::{add, cat, eq, lit, mux, not, slice, xor};
use hw_pool::Pool;

/// One bit: 1 for DIV and REM.
#[tactic(auto, unfolding(muldiv_law::specs::Steps::division_signed))]
fn signed_division(pool: &mut Pool, f2: Net, f0: Net) -> Net
    requires spare { 3 ≤ pool.old.spare }
    requires f2 { Is pool.old f2 1 4 }
    requires f0 { Is pool.old f0 1 4 }
    ensures value { (env : Env) → value_in env pool.new result ≡ division_signed (value_in env pool.old f2) (value_in env pool.old f0) }
    ensures net { Is pool.new result 1 4 }
    ensures scope { (s : Scope) → IsIn s pool.old f2 → IsIn s pool.old f0 → IsIn s pool.new result }
    ensures step { Step pool.old pool.new 3 }
{
    let signed = not(pool, f0);
    let none = lit(pool, 1, 0);
    mux(pool, f2, signed, none)
}

/// One bit: 1 where the first factor is signed.
#[tactic(auto, unfolding(muldiv_law::specs::Steps::first_signed))]
fn signed_first(pool: &mut Pool, f2: Net, f1: Net, f0: Net) -> Net
    requires spare { 5 ≤ pool.old.spare }
    requires f2 { Is pool.old f2 1 4 }
    requires f1 { Is pool.old f1 1 4 }
    requires f0 { Is pool.old f0 1 4 }
    ensures value { (env : Env) → value_in env pool.new result ≡ first_signed (value_in env pool.old f2) (value_in env pool.old f1) (value_in env pool.old f0) }
    ensures net { Is pool.new result 1 4 }
    ensures scope { (s : Scope) → IsIn s pool.old f2 → IsIn s pool.old f1 → IsIn s pool.old f0 → IsIn s pool.new result }
    ensures step { Step pool.old pool.new 5 }
{
    let mixed = not(pool, f0);
    let one = lit(pool, 1, 1);
    let product = mux(pool, f1, mixed, one);
    let none = lit(pool, 1, 0);
    mux(pool, f2, none, product)
}

/// One bit: 1 where the second factor is signed.
#[tactic(auto, unfolding(muldiv_law::specs::Steps::second_signed))]
pub(crate) fn signed_second(pool: &mut Pool, f2: Net, f1: Net) -> Net
    requires spare { 3 ≤ pool.old.spare }
    requires f2 { Is pool.old f2 1 4 }
    requires f1 { Is pool.old f1 1 4 }
    ensures value { (env : Env) → value_in env pool.new result ≡ second_signed (value_in env pool.old f2) (value_in env pool.old f1) }
    ensures net { Is pool.new result 1 4 }
    ensures scope { (s : Scope) → IsIn s pool.old f2 → IsIn s pool.old f1 → IsIn s pool.new result }
    ensures step { Step pool.old pool.new 3 }
{
    let none = lit(pool, 1, 0);
    let signed = not(pool, f1);
    mux(pool, f2, none, signed)
}

/// One bit: the top bit of a number where the one bit `signed` is 1, else 0.
pub(crate) fn top(pool: &mut Pool, signed: Net, v: Net) -> Net
    requires spare { 3 ≤ pool.old.spare }
    requires signed { Is pool.old signed 1 4 }
    requires v { Is pool.old v 32 4 }
    ensures value { (env : Env) → value_in env pool.new result ≡ choose (value_in env pool.old signed) (bits_of (value_in env pool.old v) 31 31) 0 }
    ensures net { Is pool.new result 1 4 }
    ensures scope { (s : Scope) → IsIn s pool.old signed → IsIn s pool.old v → IsIn s pool.new result }
    ensures step { Step pool.old pool.new 3 }
{
    let bit = slice(pool, v, 31, 31);
    let none = lit(pool, 1, 0);
    mux(pool, signed, bit, none)
}

/// One bit: the sign of an operand of a signed division.
#[tactic(auto, unfolding(muldiv_law::specs::Steps::sign_of))]
pub(crate) fn sign(pool: &mut Pool, f2: Net, f0: Net, v: Net) -> Net
    requires spare { 6 ≤ pool.old.spare }
    requires f2 { Is pool.old f2 1 4 }
    requires f0 { Is pool.old f0 1 4 }
    requires v { Is pool.old v 32 4 }
    ensures value { (env : Env) → value_in env pool.new result ≡ sign_of (value_in env pool.old f2) (value_in env pool.old f0) (value_in env pool.old v) }
    ensures net { Is pool.new result 1 4 }
    ensures scope { (s : Scope) → IsIn s pool.old f2 → IsIn s pool.old f0 → IsIn s pool.old v → IsIn s pool.new result }
    ensures step { Step pool.old pool.new 6 }
{
    let signed = signed_division(pool, f2, f0);
    top(pool, signed, v)
}

/// One bit: 1 where a step subtracts; `last` says so of a product.
#[tactic(auto, unfolding(muldiv_law::specs::Steps::inverts))]
pub(crate) fn inverted(pool: &mut Pool, f2: Net, f0: Net, b: Net, last: Net) -> Net
    requires spare { 8 ≤ pool.old.spare }
    requires f2 { Is pool.old f2 1 4 }
    requires f0 { Is pool.old f0 1 4 }
    requires b { Is pool.old b 32 4 }
    requires last { Is pool.old last 1 4 }
    ensures value { (env : Env) → value_in env pool.new result ≡ inverts (value_in env pool.old f2) (value_in env pool.old f0) (value_in env pool.old b) (value_in env pool.old last) }
    ensures net { Is pool.new result 1 4 }
    ensures scope { (s : Scope) → IsIn s pool.old f2 → IsIn s pool.old f0 → IsIn s pool.old b → IsIn s pool.old last → IsIn s pool.new result }
    ensures step { Step pool.old pool.new 8 }
{
    let negative = sign(pool, f2, f0, b);
    let positive = not(pool, negative);
    mux(pool, f2, positive, last)
}

/// One bit: 1 where the last step of a cycle subtracts; `last` is 1 in the last cycle of steps.
#[tactic(auto, unfolding(muldiv_law::specs::Steps::last_inverts))]
pub(crate) fn last_inverted(pool: &mut Pool, f2: Net, f1: Net, f0: Net, b: Net, last: Net) -> Net
    requires spare { 15 ≤ pool.old.spare }
    requires f2 { Is pool.old f2 1 4 }
    requires f1 { Is pool.old f1 1 4 }
    requires f0 { Is pool.old f0 1 4 }
    requires b { Is pool.old b 32 4 }
    requires last { Is pool.old last 1 4 }
    ensures value { (env : Env) → value_in env pool.new result ≡ last_inverts (value_in env pool.old f2) (value_in env pool.old f1) (value_in env pool.old f0) (value_in env pool.old b) (value_in env pool.old last) }
    ensures net { Is pool.new result 1 4 }
    ensures scope { (s : Scope) → IsIn s pool.old f2 → IsIn s pool.old f1 → IsIn s pool.old f0 → IsIn s pool.old b → IsIn s pool.old last → IsIn s pool.new result }
    ensures step { Step pool.old pool.new 15 }
{
    let signed = signed_first(pool, f2, f1, f0);
    let none = lit(pool, 1, 0);
    let takes = mux(pool, last, signed, none);
    inverted(pool, f2, f0, b, takes)
}

/// Minus `v` where the one bit is 1, else `v`.
#[tactic(auto, unfolding(muldiv_law::specs::Steps::negated))]
fn turned(pool: &mut Pool, n: Net, v: Net) -> Net
    requires spare { 5 ≤ pool.old.spare }
    requires n { Is pool.old n 1 4 }
    requires v { Is pool.old v 32 4 }
    ensures value { (env : Env) → value_in env pool.new result ≡ negated (value_in env pool.old n) (value_in env pool.old v) }
    ensures net { Is pool.new result 32 4 }
    ensures scope { (s : Scope) → IsIn s pool.old n → IsIn s pool.old v → IsIn s pool.new result }
    ensures step { Step pool.old pool.new 5 }
{
    let other = not(pool, v);
    let chosen = mux(pool, n, other, v);
    let zeros = lit(pool, 31, 0);
    let carry = cat(pool, zeros, n);
    add(pool, chosen, carry)
}

/// The half that is the result.
#[tactic(auto, unfolding(muldiv_law::specs::Steps::half_of))]
fn half(pool: &mut Pool, f2: Net, f1: Net, f0: Net, hi: Net, lo: Net) -> Net
    requires spare { 4 ≤ pool.old.spare }
    requires f2 { Is pool.old f2 1 4 }
    requires f1 { Is pool.old f1 1 4 }
    requires f0 { Is pool.old f0 1 4 }
    requires hi { Is pool.old hi 32 4 }
    requires lo { Is pool.old lo 32 4 }
    ensures value { (env : Env) → value_in env pool.new result ≡ half_of (value_in env pool.old f2) (value_in env pool.old f1) (value_in env pool.old f0) (value_in env pool.old hi) (value_in env pool.old lo) }
    ensures net { Is pool.new result 32 4 }
    ensures scope { (s : Scope) → IsIn s pool.old f2 → IsIn s pool.old f1 → IsIn s pool.old f0 → IsIn s pool.old hi → IsIn s pool.old lo → IsIn s pool.new result }
    ensures step { Step pool.old pool.new 4 }
{
    let quotient = mux(pool, f1, hi, lo);
    let low = mux(pool, f0, hi, lo);
    let product = mux(pool, f1, hi, low);
    mux(pool, f2, quotient, product)
}

/// One bit: 1 where the sign of the result is turned over.
#[tactic(auto, unfolding(muldiv_law::specs::Steps::turns))]
fn turning(pool: &mut Pool, f2: Net, f1: Net, f0: Net, a: Net, b: Net) -> Net
    requires spare { 18 ≤ pool.old.spare }
    requires f2 { Is pool.old f2 1 4 }
    requires f1 { Is pool.old f1 1 4 }
    requires f0 { Is pool.old f0 1 4 }
    requires a { Is pool.old a 32 4 }
    requires b { Is pool.old b 32 4 }
    ensures value { (env : Env) → value_in env pool.new result ≡ turns (value_in env pool.old f2) (value_in env pool.old f1) (value_in env pool.old f0) (value_in env pool.old a) (value_in env pool.old b) }
    ensures net { Is pool.new result 1 4 }
    ensures scope { (s : Scope) → IsIn s pool.old f2 → IsIn s pool.old f1 → IsIn s pool.old f0 → IsIn s pool.old a → IsIn s pool.old b → IsIn s pool.new result }
    ensures step { Step pool.old pool.new 18 }
{
    let first = sign(pool, f2, f0, a);
    let second = sign(pool, f2, f0, b);
    let differ = xor(pool, first, second);
    let nothing = lit(pool, 32, 0);
    let by_zero = eq(pool, b, nothing);
    let none = lit(pool, 1, 0);
    let quotient = mux(pool, by_zero, none, differ);
    mux(pool, f1, first, quotient)
}

/// What the one negator gives: as an instruction begins its first operand without its sign, later the result.
#[tactic(auto, unfolding(muldiv_law::specs::Steps::fixed))]
pub(crate) fn fix(
    pool: &mut Pool,
    busy: Net,
    f2: Net,
    f1: Net,
    f0: Net,
    a: Net,
    b: Net,
    hi: Net,
    lo: Net,
) -> Net
    requires spare { 35 ≤ pool.old.spare }
    requires busy { Is pool.old busy 1 4 }
    requires f2 { Is pool.old f2 1 4 }
    requires f1 { Is pool.old f1 1 4 }
    requires f0 { Is pool.old f0 1 4 }
    requires a { Is pool.old a 32 4 }
    requires b { Is pool.old b 32 4 }
    requires hi { Is pool.old hi 32 4 }
    requires lo { Is pool.old lo 32 4 }
    ensures value { (env : Env) → value_in env pool.new result ≡ fixed (value_in env pool.old busy) (value_in env pool.old f2) (value_in env pool.old f1) (value_in env pool.old f0) (value_in env pool.old a) (value_in env pool.old b) (value_in env pool.old hi) (value_in env pool.old lo) }
    ensures net { Is pool.new result 32 4 }
    ensures scope { (s : Scope) → IsIn s pool.old busy → IsIn s pool.old f2 → IsIn s pool.old f1 → IsIn s pool.old f0 → IsIn s pool.old a → IsIn s pool.old b → IsIn s pool.old hi → IsIn s pool.old lo → IsIn s pool.new result }
    ensures step { Step pool.old pool.new 35 }
{
    let turns = turning(pool, f2, f1, f0, a, b);
    let sign = sign(pool, f2, f0, a);
    let n = mux(pool, busy, turns, sign);
    let half = half(pool, f2, f1, f0, hi, lo);
    let v = mux(pool, busy, half, a);
    turned(pool, n, v)
}
