ghost use Rattle.std.specs.Prelude.{◌≡◌, ℕ, ◌≤◌, max};
ghost use Rattle.hw_pool.specs.Meaning.{Env};
ghost use Rattle.hw_pool.specs.Scope.{Scope};
ghost use Rattle.hw_gates.specs.Places.{Has, IsIn, Step, value_in};
ghost use Rattle.hw_words.specs.Sums.{carry_of, sum_of};

use crate::copies;
use hw_expr::Net;
use hw_gates::{add, cat, lit, slice, xor};
use hw_pool::Pool;

/// A sum of 32 bits and its carry, or where the one bit `s` is 1 a difference, whose carry is 0 where `a` is less
/// than `b`.
#[tactic(auto, using(hw_gates::proofs::Plain::plain), unfolding(crate::specs::Sums::flipped_of, crate::specs::Sums::framed_of, crate::specs::Sums::sum_of, crate::specs::Sums::carry_of))]
pub fn adder(pool: &mut Pool, s: Net, a: Net, b: Net) -> (Net, Net)
    requires spare { 13 ≤ pool.old.spare }
    requires s { Has pool.old s }
    requires a { Has pool.old a }
    requires b { Has pool.old b }
    requires widths { (s.width ≡ 1) × (a.width ≡ 32) × (b.width ≡ 32) }
    ensures sum { (env : Env) → value_in env pool.new result.0 ≡ sum_of (value_in env pool.old s) (value_in env pool.old a) (value_in env pool.old b) }
    ensures carry { (env : Env) → value_in env pool.new result.1 ≡ carry_of (value_in env pool.old s) (value_in env pool.old a) (value_in env pool.old b) }
    ensures nets { Has pool.new result.0 × Has pool.new result.1 }
    ensures sum_scope { (scope : Scope) → IsIn scope pool.old s → IsIn scope pool.old a → IsIn scope pool.old b → IsIn scope pool.new result.0 }
    ensures carry_scope { (scope : Scope) → IsIn scope pool.old s → IsIn scope pool.old a → IsIn scope pool.old b → IsIn scope pool.new result.1 }
    ensures widths { (result.0.width ≡ 32) × (result.1.width ≡ 1) }
    ensures levels { (result.0.level ≤ max (max s.level a.level) b.level) × (result.1.level ≤ max (max s.level a.level) b.level) }
    ensures step { Step pool.old pool.new 13 }
{
    let zero = lit(pool, 1, 0);
    let one = lit(pool, 1, 1);
    let flips = copies(pool, s, 32);
    let chosen = xor(pool, b, flips);
    let wide_a = cat(pool, zero, a);
    let long_a = cat(pool, wide_a, one);
    let wide_b = cat(pool, zero, chosen);
    let long_b = cat(pool, wide_b, s);
    let whole = add(pool, long_a, long_b);
    let sum = slice(pool, whole, 32, 1);
    let carry = slice(pool, whole, 33, 33);
    (sum, carry)
}
