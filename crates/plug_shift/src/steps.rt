ghost use Rattle.std.specs.Prelude.{◌≡◌, ℕ, ◌≤◌, eqb};
ghost use Rattle.core_words.specs.Values.{one_if, sub_of};
ghost use Rattle.hw_pool.specs.Meaning.{Env};
ghost use Rattle.hw_pool.specs.Scope.{Scope};
ghost use Rattle.hw_gates.specs.Places.{Is, IsIn, Step, value_in};
ghost use Rattle.plug_shift.specs.Machine.{left_of, moved_of, now_of};

use crate::circuit::{amount, fill};
use hw_expr::Net;
use hw_gates::{cat, eq, lit, mux, slice, sub};
use hw_pool::Pool;

/// A right shift by one place, or a left one.
#[tactic(auto, unfolding(crate::specs::Machine::moved_of))]
pub(crate) fn moved(pool: &mut Pool, word: Net, x: Net) -> Net
    requires spare { 10 ≤ pool.old.spare }
    requires word { Is pool.old word 32 4 }
    requires x { Is pool.old x 32 4 }
    ensures value { (env : Env) → value_in env pool.new result ≡ moved_of (value_in env pool.old word) (value_in env pool.old x) }
    ensures net { Is pool.new result 32 4 }
    ensures scope { (s : Scope) → IsIn s pool.old word → IsIn s pool.old x → IsIn s pool.new result }
    ensures step { Step pool.old pool.new 10 }
{
    let right = slice(pool, word, 14, 14);
    let above = fill(pool, word, x);
    let high = slice(pool, x, 31, 1);
    let to_right = cat(pool, above, high);
    let low = slice(pool, x, 30, 0);
    let zero = lit(pool, 1, 0);
    let to_left = cat(pool, low, zero);
    mux(pool, right, to_right, to_left)
}

/// The places that are left as a cycle begins: all of them in the first one.
#[tactic(auto, unfolding(crate::specs::Machine::left_of))]
pub(crate) fn left(pool: &mut Pool, word: Net, b: Net, working: Net, count: Net) -> Net
    requires spare { 5 ≤ pool.old.spare }
    requires word { Is pool.old word 32 4 }
    requires b { Is pool.old b 32 4 }
    requires working { Is pool.old working 1 4 }
    requires count { Is pool.old count 5 4 }
    ensures value { (env : Env) → value_in env pool.new result ≡ left_of (value_in env pool.old word) (value_in env pool.old b) (value_in env pool.old working) (value_in env pool.old count) }
    ensures net { Is pool.new result 5 4 }
    ensures scope { (s : Scope) → IsIn s pool.old word → IsIn s pool.old b → IsIn s pool.old working → IsIn s pool.old count → IsIn s pool.new result }
    ensures step { Step pool.old pool.new 5 }
{
    let all = amount(pool, word, b);
    mux(pool, working, count, all)
}

/// What was moved so far: the operand in the first cycle.
#[tactic(auto, unfolding(crate::specs::Machine::now_of))]
pub(crate) fn now(pool: &mut Pool, a: Net, working: Net, held: Net) -> Net
    requires spare { 1 ≤ pool.old.spare }
    requires a { Is pool.old a 32 4 }
    requires working { Is pool.old working 1 4 }
    requires held { Is pool.old held 32 4 }
    ensures value { (env : Env) → value_in env pool.new result ≡ now_of (value_in env pool.old a) (value_in env pool.old working) (value_in env pool.old held) }
    ensures net { Is pool.new result 32 4 }
    ensures scope { (s : Scope) → IsIn s pool.old a → IsIn s pool.old working → IsIn s pool.old held → IsIn s pool.new result }
    ensures step { Step pool.old pool.new 1 }
{
    mux(pool, working, held, a)
}

/// 1 where no place is left.
pub(crate) fn is_none(pool: &mut Pool, places: Net) -> Net
    requires spare { 2 ≤ pool.old.spare }
    requires places { Is pool.old places 5 4 }
    ensures value { (env : Env) → value_in env pool.new result ≡ one_if (eqb (value_in env pool.old places) 0) }
    ensures net { Is pool.new result 1 4 }
    ensures scope { (s : Scope) → IsIn s pool.old places → IsIn s pool.new result }
    ensures step { Step pool.old pool.new 2 }
{
    let zero = lit(pool, 5, 0);
    eq(pool, places, zero)
}

/// One place less.
pub(crate) fn one_less(pool: &mut Pool, places: Net) -> Net
    requires spare { 2 ≤ pool.old.spare }
    requires places { Is pool.old places 5 4 }
    ensures value { (env : Env) → value_in env pool.new result ≡ sub_of 5 (value_in env pool.old places) 1 }
    ensures net { Is pool.new result 5 4 }
    ensures scope { (s : Scope) → IsIn s pool.old places → IsIn s pool.new result }
    ensures step { Step pool.old pool.new 2 }
{
    let one = lit(pool, 5, 1);
    sub(pool, places, one)
}
