ghost use Rattle.std.specs.Prelude.{◌≡◌, ℕ, ◌*◌, ◌≤◌};
ghost use Rattle.hw_pool.specs.Meaning.{Env};
ghost use Rattle.hw_pool.specs.Scope.{Scope};
ghost use Rattle.hw_gates.specs.Places.{Is, IsIn, Step, value_in};
ghost use Rattle.muldiv_law.specs.Steps.{halves, hi_after, hi_stepped, lo_after, lo_stepped, several, step_total, summand_of, total_of, upper_of, wide_of};

use crate::signs::{sign, signed_second, top};
use hw_expr::Net;
use hw_gates::{add, cat, lit, mux, not, slice};
use hw_pool::Pool;

/// The second operand in 33 bits.
#[tactic(auto, unfolding(muldiv_law::specs::Steps::wide_of))]
pub(crate) fn wide(pool: &mut Pool, f2: Net, f1: Net, f0: Net, b: Net) -> Net
    requires spare { 14 ≤ pool.old.spare }
    requires f2 { Is pool.old f2 1 4 }
    requires f1 { Is pool.old f1 1 4 }
    requires f0 { Is pool.old f0 1 4 }
    requires b { Is pool.old b 32 4 }
    ensures value { (env : Env) → value_in env pool.new result ≡ wide_of (value_in env pool.old f2) (value_in env pool.old f1) (value_in env pool.old f0) (value_in env pool.old b) }
    ensures net { Is pool.new result 33 4 }
    ensures scope { (s : Scope) → IsIn s pool.old f2 → IsIn s pool.old f1 → IsIn s pool.old f0 → IsIn s pool.old b → IsIn s pool.new result }
    ensures step { Step pool.old pool.new 14 }
{
    let divided = sign(pool, f2, f0, b);
    let signed = signed_second(pool, f2, f1);
    let product = top(pool, signed, b);
    let above = mux(pool, f2, divided, product);
    cat(pool, above, b)
}

/// The first summand of a step.
#[tactic(auto, unfolding(muldiv_law::specs::Steps::upper_of))]
fn upper(pool: &mut Pool, f2: Net, f1: Net, hi: Net, lo: Net) -> Net
    requires spare { 10 ≤ pool.old.spare }
    requires f2 { Is pool.old f2 1 4 }
    requires f1 { Is pool.old f1 1 4 }
    requires hi { Is pool.old hi 32 4 }
    requires lo { Is pool.old lo 32 4 }
    ensures value { (env : Env) → value_in env pool.new result ≡ upper_of (value_in env pool.old f2) (value_in env pool.old f1) (value_in env pool.old hi) (value_in env pool.old lo) }
    ensures net { Is pool.new result 33 4 }
    ensures scope { (s : Scope) → IsIn s pool.old f2 → IsIn s pool.old f1 → IsIn s pool.old hi → IsIn s pool.old lo → IsIn s pool.new result }
    ensures step { Step pool.old pool.new 10 }
{
    let next = slice(pool, lo, 31, 31);
    let remainder = cat(pool, hi, next);
    let signed = signed_second(pool, f2, f1);
    let above = top(pool, signed, hi);
    let product = cat(pool, above, hi);
    mux(pool, f2, remainder, product)
}

/// The second summand of a step, above the bit that its negation adds.
#[tactic(auto, unfolding(muldiv_law::specs::Steps::summand_of))]
fn summand(pool: &mut Pool, other: Net, adds: Net, inv: Net) -> Net
    requires spare { 7 ≤ pool.old.spare }
    requires other { Is pool.old other 33 4 }
    requires adds { Is pool.old adds 1 4 }
    requires inv { Is pool.old inv 1 4 }
    ensures value { (env : Env) → value_in env pool.new result ≡ summand_of (value_in env pool.old other) (value_in env pool.old adds) (value_in env pool.old inv) }
    ensures net { Is pool.new result 34 4 }
    ensures scope { (s : Scope) → IsIn s pool.old other → IsIn s pool.old adds → IsIn s pool.old inv → IsIn s pool.new result }
    ensures step { Step pool.old pool.new 7 }
{
    let turned = not(pool, other);
    let chosen = mux(pool, inv, turned, other);
    let nothing = lit(pool, 33, 0);
    let second = mux(pool, adds, chosen, nothing);
    let zero = lit(pool, 1, 0);
    let carry = mux(pool, adds, inv, zero);
    cat(pool, second, carry)
}

/// The sum of a step, between a bit below and its carry.
#[tactic(auto, unfolding(muldiv_law::specs::Steps::total_of))]
fn total(pool: &mut Pool, x: Net, other: Net, adds: Net, inv: Net) -> Net
    requires spare { 13 ≤ pool.old.spare }
    requires x { Is pool.old x 33 4 }
    requires other { Is pool.old other 33 4 }
    requires adds { Is pool.old adds 1 4 }
    requires inv { Is pool.old inv 1 4 }
    ensures value { (env : Env) → value_in env pool.new result ≡ total_of (value_in env pool.old x) (value_in env pool.old other) (value_in env pool.old adds) (value_in env pool.old inv) }
    ensures net { Is pool.new result 35 4 }
    ensures scope { (s : Scope) → IsIn s pool.old x → IsIn s pool.old other → IsIn s pool.old adds → IsIn s pool.old inv → IsIn s pool.new result }
    ensures step { Step pool.old pool.new 13 }
{
    let one = lit(pool, 1, 1);
    let first = cat(pool, x, one);
    let zero = lit(pool, 1, 0);
    let long_first = cat(pool, zero, first);
    let second = summand(pool, other, adds, inv);
    let long_second = cat(pool, zero, second);
    add(pool, long_first, long_second)
}

/// The sum of a step: a product adds where its lowest bit is 1.
#[tactic(auto, unfolding(muldiv_law::specs::Steps::step_total))]
fn step_sum(pool: &mut Pool, f2: Net, x: Net, other: Net, inv: Net, lo: Net) -> Net
    requires spare { 16 ≤ pool.old.spare }
    requires f2 { Is pool.old f2 1 4 }
    requires x { Is pool.old x 33 4 }
    requires other { Is pool.old other 33 4 }
    requires inv { Is pool.old inv 1 4 }
    requires lo { Is pool.old lo 32 4 }
    ensures value { (env : Env) → value_in env pool.new result ≡ step_total (value_in env pool.old f2) (value_in env pool.old x) (value_in env pool.old other) (value_in env pool.old inv) (value_in env pool.old lo) }
    ensures net { Is pool.new result 35 4 }
    ensures scope { (s : Scope) → IsIn s pool.old f2 → IsIn s pool.old x → IsIn s pool.old other → IsIn s pool.old inv → IsIn s pool.old lo → IsIn s pool.new result }
    ensures step { Step pool.old pool.new 16 }
{
    let odd = slice(pool, lo, 0, 0);
    let one = lit(pool, 1, 1);
    let adds = mux(pool, f2, one, odd);
    total(pool, x, other, adds, inv)
}

/// The upper half behind a step.
#[tactic(auto, unfolding(muldiv_law::specs::Steps::hi_after))]
fn next_hi(pool: &mut Pool, f2: Net, x: Net, total: Net) -> Net
    requires spare { 6 ≤ pool.old.spare }
    requires f2 { Is pool.old f2 1 4 }
    requires x { Is pool.old x 33 4 }
    requires total { Is pool.old total 35 4 }
    ensures value { (env : Env) → value_in env pool.new result ≡ hi_after (value_in env pool.old f2) (value_in env pool.old x) (value_in env pool.old total) }
    ensures net { Is pool.new result 32 4 }
    ensures scope { (s : Scope) → IsIn s pool.old f2 → IsIn s pool.old x → IsIn s pool.old total → IsIn s pool.new result }
    ensures step { Step pool.old pool.new 6 }
{
    let carry = slice(pool, total, 34, 34);
    let difference = slice(pool, total, 32, 1);
    let kept = slice(pool, x, 31, 0);
    let remainder = mux(pool, carry, difference, kept);
    let product = slice(pool, total, 33, 2);
    mux(pool, f2, remainder, product)
}

/// The lower half behind a step.
#[tactic(auto, unfolding(muldiv_law::specs::Steps::lo_after))]
fn next_lo(pool: &mut Pool, f2: Net, total: Net, lo: Net) -> Net
    requires spare { 7 ≤ pool.old.spare }
    requires f2 { Is pool.old f2 1 4 }
    requires total { Is pool.old total 35 4 }
    requires lo { Is pool.old lo 32 4 }
    ensures value { (env : Env) → value_in env pool.new result ≡ lo_after (value_in env pool.old f2) (value_in env pool.old total) (value_in env pool.old lo) }
    ensures net { Is pool.new result 32 4 }
    ensures scope { (s : Scope) → IsIn s pool.old f2 → IsIn s pool.old total → IsIn s pool.old lo → IsIn s pool.new result }
    ensures step { Step pool.old pool.new 7 }
{
    let digits = slice(pool, lo, 30, 0);
    let carry = slice(pool, total, 34, 34);
    let quotient = cat(pool, digits, carry);
    let bit = slice(pool, total, 1, 1);
    let rest = slice(pool, lo, 31, 1);
    let product = cat(pool, bit, rest);
    mux(pool, f2, quotient, product)
}

/// Both halves behind a step.
#[tactic(auto, unfolding(muldiv_law::specs::Steps::hi_stepped, muldiv_law::specs::Steps::lo_stepped))]
pub(crate) fn stepped(
    pool: &mut Pool,
    f2: Net,
    f1: Net,
    other: Net,
    inv: Net,
    hi: Net,
    lo: Net,
) -> (Net, Net)
    requires spare { 39 ≤ pool.old.spare }
    requires f2 { Is pool.old f2 1 4 }
    requires f1 { Is pool.old f1 1 4 }
    requires other { Is pool.old other 33 4 }
    requires inv { Is pool.old inv 1 4 }
    requires hi { Is pool.old hi 32 4 }
    requires lo { Is pool.old lo 32 4 }
    ensures hi { (env : Env) → value_in env pool.new result.0 ≡ hi_stepped (value_in env pool.old f2) (value_in env pool.old f1) (value_in env pool.old other) (value_in env pool.old inv) (value_in env pool.old hi) (value_in env pool.old lo) }
    ensures lo { (env : Env) → value_in env pool.new result.1 ≡ lo_stepped (value_in env pool.old f2) (value_in env pool.old f1) (value_in env pool.old other) (value_in env pool.old inv) (value_in env pool.old hi) (value_in env pool.old lo) }
    ensures nets { Is pool.new result.0 32 4 × Is pool.new result.1 32 4 }
    ensures scope { (s : Scope) → IsIn s pool.old f2 → IsIn s pool.old f1 → IsIn s pool.old other → IsIn s pool.old inv → IsIn s pool.old hi → IsIn s pool.old lo → IsIn s pool.new result.0 × IsIn s pool.new result.1 }
    ensures step { Step pool.old pool.new 39 }
{
    let x = upper(pool, f2, f1, hi, lo);
    let total = step_sum(pool, f2, x, other, inv, lo);
    let upper = next_hi(pool, f2, x, total);
    let lower = next_lo(pool, f2, total, lo);
    (upper, lower)
}

/// Both halves behind some steps.
pub(crate) fn several(
    pool: &mut Pool,
    n: u32,
    f2: Net,
    f1: Net,
    other: Net,
    inv: Net,
    hi: Net,
    lo: Net,
) -> (Net, Net)
    requires most { n ≤ 3 }
    requires spare { 39 * n ≤ pool.old.spare }
    requires f2 { Is pool.old f2 1 4 }
    requires f1 { Is pool.old f1 1 4 }
    requires other { Is pool.old other 33 4 }
    requires inv { Is pool.old inv 1 4 }
    requires hi { Is pool.old hi 32 4 }
    requires lo { Is pool.old lo 32 4 }
    ensures hi { (env : Env) → value_in env pool.new result.0 ≡ (several (value_in env pool.old f2) (value_in env pool.old f1) (value_in env pool.old other) (value_in env pool.old inv) n (halves (value_in env pool.old hi) (value_in env pool.old lo))).hi }
    ensures lo { (env : Env) → value_in env pool.new result.1 ≡ (several (value_in env pool.old f2) (value_in env pool.old f1) (value_in env pool.old other) (value_in env pool.old inv) n (halves (value_in env pool.old hi) (value_in env pool.old lo))).lo }
    ensures nets { Is pool.new result.0 32 4 × Is pool.new result.1 32 4 }
    ensures scope { (s : Scope) → IsIn s pool.old f2 → IsIn s pool.old f1 → IsIn s pool.old other → IsIn s pool.old inv → IsIn s pool.old hi → IsIn s pool.old lo → IsIn s pool.new result.0 × IsIn s pool.new result.1 }
    ensures step { Step pool.old pool.new (39 * n) }
{
    let mut upper = hi;
    let mut lower = lo;
    for k in 0..n {
        let (next_upper, next_lower) = stepped(pool, f2, f1, other, inv, upper, lower);
        upper = next_upper;
        lower = next_lower;
    }
    (upper, lower)
}
