ghost use Rattle.std.specs.Prelude.{◌≡◌, ℕ, ◌+◌, ◌*◌, ◌≤◌};
ghost use Rattle.hw_pool.specs.Meaning.{Env};
ghost use Rattle.hw_pool.specs.Scope.{Scope};
ghost use Rattle.hw_gates.specs.Places.{Is, IsIn, Step, value_in};
ghost use Rattle.muldiv_law.specs.Steps.{hi_cycled, lo_cycled};
ghost use Rattle.muldiv_law.specs.Machine.{count_next, ends_of, hi_counted, hi_next, lo_counted, lo_next, works_of};

use crate::signs::{fix, inverted, last_inverted};
use crate::steps::{several, stepped, wide};
use hw_expr::Net;
use hw_gates::{add, and, eq, lit, ltu, mux, slice};
use hw_pool::Pool;

/// Both halves behind a cycle of steps; `last` is 1 in the last one.
#[tactic(auto, unfolding(muldiv_law::specs::Steps::hi_cycled, muldiv_law::specs::Steps::lo_cycled))]
fn cycle(
    pool: &mut Pool,
    unroll: u32,
    f2: Net,
    f1: Net,
    f0: Net,
    b: Net,
    last: Net,
    hi: Net,
    lo: Net,
) -> (Net, Net)
    requires least { 1 ≤ unroll }
    requires most { unroll ≤ 4 }
    requires spare { 39 * unroll + 38 ≤ pool.old.spare }
    requires f2 { Is pool.old f2 1 4 }
    requires f1 { Is pool.old f1 1 4 }
    requires f0 { Is pool.old f0 1 4 }
    requires b { Is pool.old b 32 4 }
    requires last { Is pool.old last 1 4 }
    requires hi { Is pool.old hi 32 4 }
    requires lo { Is pool.old lo 32 4 }
    ensures hi { (env : Env) → value_in env pool.new result.0 ≡ hi_cycled unroll (value_in env pool.old f2) (value_in env pool.old f1) (value_in env pool.old f0) (value_in env pool.old b) (value_in env pool.old last) (value_in env pool.old hi) (value_in env pool.old lo) }
    ensures lo { (env : Env) → value_in env pool.new result.1 ≡ lo_cycled unroll (value_in env pool.old f2) (value_in env pool.old f1) (value_in env pool.old f0) (value_in env pool.old b) (value_in env pool.old last) (value_in env pool.old hi) (value_in env pool.old lo) }
    ensures nets { Is pool.new result.0 32 4 × Is pool.new result.1 32 4 }
    ensures scope { (s : Scope) → IsIn s pool.old f2 → IsIn s pool.old f1 → IsIn s pool.old f0 → IsIn s pool.old b → IsIn s pool.old last → IsIn s pool.old hi → IsIn s pool.old lo → IsIn s pool.new result.0 × IsIn s pool.new result.1 }
    ensures step { Step pool.old pool.new (39 * unroll + 38) }
{
    let other = wide(pool, f2, f1, f0, b);
    let none = lit(pool, 1, 0);
    let plain = inverted(pool, f2, f0, b, none);
    let inverts = last_inverted(pool, f2, f1, f0, b, last);
    let (upper, lower) = several(pool, unroll - 1, f2, f1, other, plain, hi, lo);
    stepped(pool, f2, f1, other, inverts, upper, lower)
}

/// One bit: 1 in the last cycle of an instruction.
#[tactic(auto, unfolding(muldiv_law::specs::Machine::ends_of))]
pub fn ends(pool: &mut Pool, rounds: u64, busy: Net, count: Net) -> Net
    requires rounds { rounds ≤ 32 }
    requires spare { 3 ≤ pool.old.spare }
    requires busy { Is pool.old busy 1 4 }
    requires count { Is pool.old count 6 4 }
    ensures value { (env : Env) → value_in env pool.new result ≡ ends_of rounds (value_in env pool.old busy) (value_in env pool.old count) }
    ensures net { Is pool.new result 1 4 }
    ensures scope { (s : Scope) → IsIn s pool.old busy → IsIn s pool.old count → IsIn s pool.new result }
    ensures step { Step pool.old pool.new 3 }
{
    let last = lit(pool, 6, rounds + 1);
    let is_last = eq(pool, count, last);
    and(pool, busy, is_last)
}

/// One bit: 1 where steps are made.
#[tactic(auto, unfolding(muldiv_law::specs::Machine::works_of))]
fn works(pool: &mut Pool, rounds: u64, busy: Net, count: Net) -> Net
    requires rounds { rounds ≤ 32 }
    requires spare { 3 ≤ pool.old.spare }
    requires busy { Is pool.old busy 1 4 }
    requires count { Is pool.old count 6 4 }
    ensures value { (env : Env) → value_in env pool.new result ≡ works_of rounds (value_in env pool.old busy) (value_in env pool.old count) }
    ensures net { Is pool.new result 1 4 }
    ensures scope { (s : Scope) → IsIn s pool.old busy → IsIn s pool.old count → IsIn s pool.new result }
    ensures step { Step pool.old pool.new 3 }
{
    let all = lit(pool, 6, rounds);
    let is_before = ltu(pool, count, all);
    and(pool, busy, is_before)
}

/// The next value of the count.
#[tactic(auto, unfolding(muldiv_law::specs::Machine::count_next))]
pub fn next_count(pool: &mut Pool, busy: Net, count: Net) -> Net
    requires spare { 4 ≤ pool.old.spare }
    requires busy { Is pool.old busy 1 4 }
    requires count { Is pool.old count 6 4 }
    ensures value { (env : Env) → value_in env pool.new result ≡ count_next (value_in env pool.old busy) (value_in env pool.old count) }
    ensures net { Is pool.new result 6 4 }
    ensures scope { (s : Scope) → IsIn s pool.old busy → IsIn s pool.old count → IsIn s pool.new result }
    ensures step { Step pool.old pool.new 4 }
{
    let one = lit(pool, 6, 1);
    let more = add(pool, count, one);
    let none = lit(pool, 6, 0);
    mux(pool, busy, more, none)
}

/// Both halves behind the steps of the cycle that the count says.
#[tactic(auto, unfolding(muldiv_law::specs::Machine::hi_counted, muldiv_law::specs::Machine::lo_counted))]
fn counted(
    pool: &mut Pool,
    unroll: u32,
    rounds: u64,
    f2: Net,
    f1: Net,
    f0: Net,
    b: Net,
    count: Net,
    hi: Net,
    lo: Net,
) -> (Net, Net)
    requires least { 1 ≤ unroll }
    requires most { unroll ≤ 4 }
    requires some { 1 ≤ rounds }
    requires rounds { rounds ≤ 32 }
    requires spare { 39 * unroll + 40 ≤ pool.old.spare }
    requires f2 { Is pool.old f2 1 4 }
    requires f1 { Is pool.old f1 1 4 }
    requires f0 { Is pool.old f0 1 4 }
    requires b { Is pool.old b 32 4 }
    requires count { Is pool.old count 6 4 }
    requires hi { Is pool.old hi 32 4 }
    requires lo { Is pool.old lo 32 4 }
    ensures hi { (env : Env) → value_in env pool.new result.0 ≡ hi_counted unroll rounds (value_in env pool.old f2) (value_in env pool.old f1) (value_in env pool.old f0) (value_in env pool.old b) (value_in env pool.old count) (value_in env pool.old hi) (value_in env pool.old lo) }
    ensures lo { (env : Env) → value_in env pool.new result.1 ≡ lo_counted unroll rounds (value_in env pool.old f2) (value_in env pool.old f1) (value_in env pool.old f0) (value_in env pool.old b) (value_in env pool.old count) (value_in env pool.old hi) (value_in env pool.old lo) }
    ensures nets { Is pool.new result.0 32 4 × Is pool.new result.1 32 4 }
    ensures scope { (s : Scope) → IsIn s pool.old f2 → IsIn s pool.old f1 → IsIn s pool.old f0 → IsIn s pool.old b → IsIn s pool.old count → IsIn s pool.old hi → IsIn s pool.old lo → IsIn s pool.new result.0 × IsIn s pool.new result.1 }
    ensures step { Step pool.old pool.new (39 * unroll + 40) }
{
    let final_count = lit(pool, 6, rounds - 1);
    let last = eq(pool, count, final_count);
    cycle(pool, unroll, f2, f1, f0, b, last, hi, lo)
}

/// The next values of both halves.
#[tactic(auto, unfolding(muldiv_law::specs::Machine::hi_next, muldiv_law::specs::Machine::lo_next))]
pub fn next_halves(
    pool: &mut Pool,
    unroll: u32,
    rounds: u64,
    word: Net,
    a: Net,
    b: Net,
    busy: Net,
    count: Net,
    hi: Net,
    lo: Net,
) -> (Net, Net)
    requires least { 1 ≤ unroll }
    requires most { unroll ≤ 4 }
    requires some { 1 ≤ rounds }
    requires rounds { rounds ≤ 32 }
    requires spare { 39 * unroll + 84 ≤ pool.old.spare }
    requires word { Is pool.old word 32 4 }
    requires a { Is pool.old a 32 4 }
    requires b { Is pool.old b 32 4 }
    requires busy { Is pool.old busy 1 4 }
    requires count { Is pool.old count 6 4 }
    requires hi { Is pool.old hi 32 4 }
    requires lo { Is pool.old lo 32 4 }
    ensures hi { (env : Env) → value_in env pool.new result.0 ≡ hi_next unroll rounds (value_in env pool.old word) (value_in env pool.old b) (value_in env pool.old busy) (value_in env pool.old count) (value_in env pool.old hi) (value_in env pool.old lo) }
    ensures lo { (env : Env) → value_in env pool.new result.1 ≡ lo_next unroll rounds (value_in env pool.old word) (value_in env pool.old a) (value_in env pool.old b) (value_in env pool.old busy) (value_in env pool.old count) (value_in env pool.old hi) (value_in env pool.old lo) }
    ensures nets { Is pool.new result.0 32 4 × Is pool.new result.1 32 4 }
    ensures scope { (s : Scope) → IsIn s pool.old word → IsIn s pool.old a → IsIn s pool.old b → IsIn s pool.old busy → IsIn s pool.old count → IsIn s pool.old hi → IsIn s pool.old lo → IsIn s pool.new result.0 × IsIn s pool.new result.1 }
    ensures step { Step pool.old pool.new (39 * unroll + 84) }
{
    let f2 = slice(pool, word, 14, 14);
    let f1 = slice(pool, word, 13, 13);
    let f0 = slice(pool, word, 12, 12);
    let works = works(pool, rounds, busy, count);
    let (upper, lower) = counted(pool, unroll, rounds, f2, f1, f0, b, count, hi, lo);
    let none = lit(pool, 32, 0);
    let next_upper = mux(pool, works, upper, none);
    let fixed = fix(pool, busy, f2, f1, f0, a, b, hi, lo);
    let next_lower = mux(pool, works, lower, fixed);
    (next_upper, next_lower)
}
