ghost use Rattle.std.specs.Prelude.{◌≡◌, ℕ, ◌+◌, ◌-◌, ◌*◌, ◌%◌, ◌<◌, ◌≤◌, ◌^◌, eqb, length, max};
ghost use Rattle.core_words.specs.Values.{bits_of, one_if};
ghost use Rattle.hw_pool.specs.Meaning.{Env};
ghost use Rattle.hw_pool.specs.Frame.{Adds, AddsInner};
ghost use Rattle.hw_pool.specs.Scope.{Scope};
ghost use Rattle.hw_expr.specs.Nets.{InScope, IsNet, net_value};
ghost use Rattle.hw_expr.specs.Lists.{AreNets, greatest, hot_of, net_at};

use crate::{Net, cat, eq, lit, mux, slice};
use hw_pool::Pool;

/// The item of a list of nets of one width that `index` names. The list has one item for each number of
/// the index's width.
pub fn mux_tree(pool: &mut Pool, index: Net, list: &[Net]) -> Net
    requires spare { 2 * length list.now ≤ pool.old.spare }
    requires index { IsNet pool.old index }
    requires list { AreNets pool.old (net_at list.now 0).width list.now }
    requires items { length list.now ≡ 2 ^ index.width }
    ensures value { (env : Env) → net_value env pool.old index < 2 ^ index.width → net_value env pool.new result ≡ net_value env pool.old (net_at list.now (net_value env pool.old index)) }
    ensures net { IsNet pool.new result }
    ensures scope { (s : Scope) → InScope s pool.old index → ((k : ℕ) → k < length list.now → InScope s pool.old (net_at list.now k)) → InScope s pool.new result }
    ensures width { result.width ≡ (net_at list.now 0).width }
    ensures level { result.level ≡ max index.level (greatest list.now) }
    ensures adds { Adds pool.old pool.new (2 * length list.now) }
    ensures inner { AddsInner pool.old.nodes pool.new.nodes }
    ensures kept { (s : Scope) (n : Net) → InScope s pool.old n → InScope s pool.new n }
    ensures nets { (n : Net) → IsNet pool.old n → IsNet pool.new n }
    ensures values { (env : Env) (n : Net) → IsNet pool.old n → net_value env pool.new n ≡ net_value env pool.old n }
{
    select(pool, index, index.width, list)
}

/// The item of a list that the low `bits` bits of `index` name, where there is one for each number of so
/// many bits.
#[tactic(auto, using(hw_pool::proofs::Frames::inner_then, hw_pool::proofs::Frames::inner_nothing))]
fn select(pool: &mut Pool, index: Net, bits: u32, list: &[Net]) -> Net
    requires spare { 2 * length list.now ≤ pool.old.spare + 2 }
    requires index { IsNet pool.old index }
    requires bits { bits ≤ index.width }
    requires list { AreNets pool.old (net_at list.now 0).width list.now }
    requires items { length list.now ≡ 2 ^ bits }
    ensures value { (env : Env) → net_value env pool.new result ≡ net_value env pool.old (net_at list.now (net_value env pool.old index % 2 ^ bits)) }
    ensures net { IsNet pool.new result }
    ensures scope { (s : Scope) → InScope s pool.old index → ((k : ℕ) → k < length list.now → InScope s pool.old (net_at list.now k)) → InScope s pool.new result }
    ensures width { result.width ≡ (net_at list.now 0).width }
    ensures leaf { bits ≡ 0 → result.level ≡ greatest list.now }
    ensures level { 1 ≤ bits → result.level ≡ max index.level (greatest list.now) }
    ensures adds { Adds pool.old pool.new (2 * length list.now - 2) }
    ensures inner { AddsInner pool.old.nodes pool.new.nodes }
    ensures kept { (s : Scope) (n : Net) → InScope s pool.old n → InScope s pool.new n }
    ensures nets { (n : Net) → IsNet pool.old n → IsNet pool.new n }
    ensures values { (env : Env) (n : Net) → IsNet pool.old n → net_value env pool.new n ≡ net_value env pool.old n }
{
    if bits == 0 {
        return list[0];
    }
    let half = list.len() / 2;
    let bit = slice(pool, index, bits - 1, bits - 1);
    let low = select(pool, index, bits - 1, &list[..half]);
    let high = select(pool, index, bits - 1, &list[half..]);
    mux(pool, bit, high, low)
}

/// A net of 2 ^ the width of `a` bits, of which bit k is 1 exactly where `a` is k.
#[tactic(auto, using(hw_pool::proofs::Frames::inner_then))]
pub fn one_hot(pool: &mut Pool, a: Net) -> Net
    requires spare { 3 * 2 ^ a.width ≤ pool.old.spare }
    requires a { IsNet pool.old a }
    requires narrow { a.width ≤ 6 }
    ensures bits { (env : Env) (k : ℕ) → k < 2 ^ a.width → bits_of (net_value env pool.new result) k k ≡ one_if (eqb (net_value env pool.old a) k) }
    ensures value { (env : Env) → net_value env pool.new result ≡ hot_of (2 ^ a.width) (net_value env pool.old a) }
    ensures net { IsNet pool.new result }
    ensures scope { (s : Scope) → InScope s pool.old a → InScope s pool.new result }
    ensures width { result.width ≡ 2 ^ a.width }
    ensures level { result.level ≡ a.level }
    ensures adds { Adds pool.old pool.new (3 * 2 ^ a.width) }
    ensures inner { AddsInner pool.old.nodes pool.new.nodes }
    ensures kept { (s : Scope) (n : Net) → InScope s pool.old n → InScope s pool.new n }
    ensures nets { (n : Net) → IsNet pool.old n → IsNet pool.new n }
    ensures values { (env : Env) (n : Net) → IsNet pool.old n → net_value env pool.new n ≡ net_value env pool.old n }
{
    hot(pool, a, 1 << a.width)
}

/// A net of `n` bits, of which bit k is 1 exactly where `a` is k.
#[tactic(auto, using(hw_pool::proofs::Frames::inner_then))]
fn hot(pool: &mut Pool, a: Net, n: u32) -> Net
    requires spare { 3 * n ≤ pool.old.spare }
    requires a { IsNet pool.old a }
    requires least { 1 ≤ n }
    requires most { n ≤ 64 }
    requires numbers { n ≤ 2 ^ a.width }
    ensures value { (env : Env) → net_value env pool.new result ≡ hot_of n (net_value env pool.old a) }
    ensures net { IsNet pool.new result }
    ensures scope { (s : Scope) → InScope s pool.old a → InScope s pool.new result }
    ensures width { result.width ≡ n }
    ensures level { result.level ≡ a.level }
    ensures adds { Adds pool.old pool.new (3 * n) }
    ensures inner { AddsInner pool.old.nodes pool.new.nodes }
    ensures kept { (s : Scope) (n : Net) → InScope s pool.old n → InScope s pool.new n }
    ensures nets { (n : Net) → IsNet pool.old n → IsNet pool.new n }
    ensures values { (env : Env) (n : Net) → IsNet pool.old n → net_value env pool.new n ≡ net_value env pool.old n }
{
    let number = lit(pool, a.width, u64::from(n - 1));
    let bit = eq(pool, a, number);
    if n == 1 {
        return bit;
    }
    let low = hot(pool, a, n - 1);
    cat(pool, bit, low)
}
