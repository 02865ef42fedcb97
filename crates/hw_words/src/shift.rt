ghost use Rattle.std.specs.Prelude.{◌≡◌, ℕ, ◌+◌, ◌<◌, ◌≤◌, max};
ghost use Rattle.core_words.specs.Values.{bits_of, join_of};
ghost use Rattle.hw_pool.specs.Meaning.{Env};
ghost use Rattle.hw_pool.specs.Scope.{Scope};
ghost use Rattle.hw_gates.specs.Places.{Has, IsIn, Step, value_in};
ghost use Rattle.hw_words.specs.Shifts.{moved_of, reverse_of, shifted_of};

use crate::copies;
use hw_expr::Net;
use hw_gates::{cat, mux, slice};
use hw_pool::Pool;

/// Bit `k` of a word more, below what there is.
fn with_bit(pool: &mut Pool, a: Net, k: u32, so_far: Net) -> Net
    requires spare { 2 ≤ pool.old.spare }
    requires a { Has pool.old a }
    requires so_far { Has pool.old so_far }
    requires widths { (a.width ≡ 32) × (so_far.width ≡ k) }
    requires place { k < 32 }
    ensures value { (env : Env) → value_in env pool.new result ≡ join_of 1 (value_in env pool.old so_far) (bits_of (value_in env pool.old a) k k) }
    ensures net { Has pool.new result }
    ensures scope { (s : Scope) → IsIn s pool.old a → IsIn s pool.old so_far → IsIn s pool.new result }
    ensures width { result.width ≡ k + 1 }
    ensures level { result.level ≤ max a.level so_far.level }
    ensures step { Step pool.old pool.new 2 }
{
    let bit = slice(pool, a, k, k);
    cat(pool, so_far, bit)
}

/// The bits of a word in reverse.
pub fn reverse(pool: &mut Pool, a: Net) -> Net
    requires spare { 63 ≤ pool.old.spare }
    requires a { Has pool.old a }
    requires width { a.width ≡ 32 }
    ensures value { (env : Env) → value_in env pool.new result ≡ reverse_of (value_in env pool.old a) 32 }
    ensures net { Has pool.new result }
    ensures scope { (s : Scope) → IsIn s pool.old a → IsIn s pool.new result }
    ensures width { result.width ≡ 32 }
    ensures level { result.level ≤ a.level }
    ensures step { Step pool.old pool.new 63 }
{
    let mut so_far = slice(pool, a, 0, 0);
    for k in 1..32 {
        so_far = with_bit(pool, a, k, so_far);
    }
    so_far
}

/// One step of a right shift: by `by` places where bit `place` of the amount is 1, with copies of `fill` above.
#[tactic(auto, unfolding(crate::specs::Shifts::moved_of))]
fn moved(pool: &mut Pool, amount: Net, place: u32, by: u32, fill: Net, x: Net) -> Net
    requires spare { 7 ≤ pool.old.spare }
    requires amount { Has pool.old amount }
    requires fill { Has pool.old fill }
    requires x { Has pool.old x }
    requires widths { (amount.width ≡ 5) × (fill.width ≡ 1) × (x.width ≡ 32) }
    requires place { place < 5 }
    requires least { 1 ≤ by }
    requires most { by ≤ 16 }
    ensures value { (env : Env) → value_in env pool.new result ≡ moved_of by (bits_of (value_in env pool.old amount) place place) (value_in env pool.old fill) (value_in env pool.old x) }
    ensures net { Has pool.new result }
    ensures scope { (s : Scope) → IsIn s pool.old amount → IsIn s pool.old fill → IsIn s pool.old x → IsIn s pool.new result }
    ensures width { result.width ≡ 32 }
    ensures level { result.level ≤ max (max amount.level fill.level) x.level }
    ensures step { Step pool.old pool.new 7 }
{
    let bit = slice(pool, amount, place, place);
    let above = copies(pool, fill, by);
    let kept = slice(pool, x, 31, by);
    let shifted = cat(pool, above, kept);
    mux(pool, bit, shifted, x)
}

/// A word shifted right by an amount of 5 bits, with copies of the one bit `fill` above.
#[tactic(auto, unfolding(crate::specs::Shifts::shifted_of))]
pub fn shifted(pool: &mut Pool, amount: Net, fill: Net, x: Net) -> Net
    requires spare { 35 ≤ pool.old.spare }
    requires amount { Has pool.old amount }
    requires fill { Has pool.old fill }
    requires x { Has pool.old x }
    requires widths { (amount.width ≡ 5) × (fill.width ≡ 1) × (x.width ≡ 32) }
    ensures value { (env : Env) → value_in env pool.new result ≡ shifted_of (value_in env pool.old amount) (value_in env pool.old fill) (value_in env pool.old x) }
    ensures net { Has pool.new result }
    ensures scope { (s : Scope) → IsIn s pool.old amount → IsIn s pool.old fill → IsIn s pool.old x → IsIn s pool.new result }
    ensures width { result.width ≡ 32 }
    ensures level { result.level ≤ max (max amount.level fill.level) x.level }
    ensures step { Step pool.old pool.new 35 }
{
    let x = moved(pool, amount, 4, 16, fill, x);
    let x = moved(pool, amount, 3, 8, fill, x);
    let x = moved(pool, amount, 2, 4, fill, x);
    let x = moved(pool, amount, 1, 2, fill, x);
    moved(pool, amount, 0, 1, fill, x)
}
