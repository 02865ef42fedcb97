ghost use Rattle.std.specs.Prelude.{◌≡◌, ◌+◌, ◌-◌, ◌<◌, ◌≤◌, ◌^◌, cond, eqb, max};
ghost use Rattle.hw_pool.specs.Meaning.{Env};
ghost use Rattle.hw_pool.specs.Frame.{Adds, AddsInner};
ghost use Rattle.hw_pool.specs.Scope.{Scope, Takes};
ghost use Rattle.hw_expr.specs.Nets.{InScope, IsNet, net_value};
ghost use Rattle.hw_expr.specs.Signed.{lts_of, sra_of};

use crate::{Net, cat, eq, lit, ltu, mux, slice};
use core_words::mask_of;
use hw_pool::Pool;

/// One bit: 1 where `a` is less than `b`, a net of its width, as two's complement numbers.
#[tactic(auto, using(crate::proofs::Nets::still_value, crate::proofs::Scopes::still_scope, crate::proofs::Scopes::takes_at, hw_pool::proofs::Frames::adds_then, crate::proofs::Values::choose_test))]
pub fn lts(pool: &mut Pool, a: Net, b: Net) -> Net
    requires spare { 8 ≤ pool.old.spare }
    requires a { IsNet pool.old a }
    requires b { IsNet pool.old b }
    requires equal { b.width ≡ a.width }
    ensures value { (env : Env) → net_value env pool.new result ≡ lts_of a.width (net_value env pool.old a) (net_value env pool.old b) }
    ensures net { IsNet pool.new result }
    ensures scope { (s : Scope) → InScope s pool.old a → InScope s pool.old b → InScope s pool.new result }
    ensures width { result.width ≡ 1 }
    ensures level { result.level ≡ max a.level b.level }
    ensures adds { Adds pool.old pool.new 8 }
    ensures inner { AddsInner pool.old.nodes pool.new.nodes }
    ensures kept { (s : Scope) (n : Net) → InScope s pool.old n → InScope s pool.new n }
    ensures nets { (n : Net) → IsNet pool.old n → IsNet pool.new n }
    ensures values { (env : Env) (n : Net) → IsNet pool.old n → net_value env pool.new n ≡ net_value env pool.old n }
{
    let top = a.width - 1;
    let sign = slice(pool, a, top, top);
    let other = slice(pool, b, top, top);
    let same = eq(pool, sign, other);
    let lower = ltu(pool, a, b);
    mux(pool, same, lower, sign)
}

/// `n` copies of one bit.
#[tactic(auto, using(crate::proofs::Nets::still_value, crate::proofs::Scopes::still_scope, crate::proofs::Scopes::takes_at, hw_pool::proofs::Frames::adds_then, hw_pool::proofs::Frames::inner_then, crate::proofs::Values::choose_test))]
fn copies(pool: &mut Pool, bit: Net, n: u32) -> Net
    requires spare { 3 ≤ pool.old.spare }
    requires bit { IsNet pool.old bit }
    requires one { bit.width ≡ 1 }
    requires least { 1 ≤ n }
    requires most { n ≤ 64 }
    ensures value { (env : Env) → net_value env pool.new result ≡ cond (eqb (net_value env pool.old bit) 1) (2 ^ n - 1) 0 }
    ensures net { IsNet pool.new result }
    ensures scope { (s : Scope) → InScope s pool.old bit → InScope s pool.new result }
    ensures width { result.width ≡ n }
    ensures level { result.level ≡ bit.level }
    ensures adds { Adds pool.old pool.new 3 }
    ensures inner { AddsInner pool.old.nodes pool.new.nodes }
    ensures kept { (s : Scope) (n : Net) → InScope s pool.old n → InScope s pool.new n }
    ensures nets { (n : Net) → IsNet pool.old n → IsNet pool.new n }
    ensures values { (env : Env) (n : Net) → IsNet pool.old n → net_value env pool.new n ≡ net_value env pool.old n }
{
    let ones = lit(pool, n, mask_of(n));
    let zeros = lit(pool, n, 0);
    mux(pool, bit, ones, zeros)
}

/// `a` shifted right by `n` places as a two's complement number: the sign comes in from above.
#[tactic(auto, using(crate::proofs::Nets::still_value, crate::proofs::Scopes::still_scope, crate::proofs::Scopes::takes_at, hw_pool::proofs::Frames::adds_then, crate::proofs::Values::choose_test))]
pub fn sra_by(pool: &mut Pool, a: Net, n: u32) -> Net
    requires spare { 80 ≤ pool.old.spare }
    requires a { IsNet pool.old a }
    requires within { n < a.width }
    ensures value { (env : Env) → net_value env pool.new result ≡ sra_of a.width (net_value env pool.old a) n }
    ensures net { IsNet pool.new result }
    ensures scope { (s : Scope) → InScope s pool.old a → InScope s pool.new result }
    ensures width { result.width ≡ a.width }
    ensures level { result.level ≡ a.level }
    ensures adds { Adds pool.old pool.new 80 }
    ensures inner { AddsInner pool.old.nodes pool.new.nodes }
    ensures kept { (s : Scope) (n : Net) → InScope s pool.old n → InScope s pool.new n }
    ensures nets { (n : Net) → IsNet pool.old n → IsNet pool.new n }
    ensures values { (env : Env) (n : Net) → IsNet pool.old n → net_value env pool.new n ≡ net_value env pool.old n }
{
    let top = a.width - 1;
    let low = slice(pool, a, top, n);
    if n == 0 {
        return low;
    }
    let sign = slice(pool, a, top, top);
    let high = copies(pool, sign, n);
    cat(pool, high, low)
}
