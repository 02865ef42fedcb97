ghost use Rattle.std.specs.Prelude.{◌≡◌, ℕ, ◌<◌, ◌≤◌, ◌^◌, bit_or, max};
ghost use Rattle.core_words.specs.Values.{choose};
ghost use Rattle.hw_pool.specs.Meaning.{Env};
ghost use Rattle.hw_pool.specs.Scope.{Scope};
ghost use Rattle.hw_gates.specs.Places.{Has, IsIn, Step, value_in};
ghost use Rattle.hw_words.specs.Bits.{copies_of};

use core_words::mask_of;
use hw_expr::Net;
use hw_gates::{lit, mux, or};
use hw_pool::Pool;

/// So many copies of one bit, from 1 to 64.
pub fn copies(pool: &mut Pool, bit: Net, n: u32) -> Net
    requires spare { 3 ≤ pool.old.spare }
    requires bit { Has pool.old bit }
    requires width { bit.width ≡ 1 }
    requires least { 1 ≤ n }
    requires most { n ≤ 64 }
    ensures value { (env : Env) → value_in env pool.new result ≡ copies_of n (value_in env pool.old bit) }
    ensures net { Has pool.new result }
    ensures scope { (s : Scope) → IsIn s pool.old bit → IsIn s pool.new result }
    ensures width { result.width ≡ n }
    ensures level { result.level ≤ bit.level }
    ensures step { Step pool.old pool.new 3 }
{
    let ones = lit(pool, n, mask_of(n));
    let zeros = lit(pool, n, 0);
    mux(pool, bit, ones, zeros)
}

/// A number where the one bit `hit` is 1, beside what there is.
pub fn gather(pool: &mut Pool, hit: Net, number: u32, so_far: Net) -> Net
    requires spare { 4 ≤ pool.old.spare }
    requires hit { Has pool.old hit }
    requires so_far { Has pool.old so_far }
    requires width { hit.width ≡ 1 }
    requires least { 1 ≤ so_far.width }
    requires most { so_far.width ≤ 64 }
    requires number { number < 2 ^ so_far.width }
    ensures value { (env : Env) → value_in env pool.new result ≡ bit_or (value_in env pool.old so_far) (choose (value_in env pool.old hit) number 0) }
    ensures net { Has pool.new result }
    ensures scope { (s : Scope) → IsIn s pool.old hit → IsIn s pool.old so_far → IsIn s pool.new result }
    ensures width { result.width ≡ so_far.width }
    ensures level { result.level ≤ max hit.level so_far.level }
    ensures step { Step pool.old pool.new 4 }
{
    let chosen = lit(pool, so_far.width, u64::from(number));
    let zero = lit(pool, so_far.width, 0);
    let masked = mux(pool, hit, chosen, zero);
    or(pool, so_far, masked)
}
