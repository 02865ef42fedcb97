ghost use Rattle.std.specs.Prelude.{◌≡◌, ℕ, ◌+◌, ◌-◌, ◌<◌, ◌≤◌, ◌^◌, bit_and, bit_or, bit_xor, eqb, length, ltb, max};
ghost use Rattle.core_words.specs.Values.{add_of, bits_of, choose, join_of, not_of, one_if, sub_of};
ghost use Rattle.hw_pool.specs.Nodes.{AreChildren, IsPool, IsWidth, node_at};
ghost use Rattle.hw_pool.specs.Trees.{of_op, tree_of};
ghost use Rattle.hw_pool.specs.Meaning.{Env, Fits, value};
ghost use Rattle.hw_pool.specs.Frame.{Adds, AddsInner, IsInner};
ghost use Rattle.hw_pool.specs.Scope.{Scope, Takes};
ghost use Rattle.hw_expr.specs.Nets.{InScope, IsNet, net_value};

use crate::Net;
use hw_pool::{Node, Op, Pool};

/// Adds a node of an operator whose operands are live and have the widths that it needs.
#[tactic(auto, using(crate::proofs::Nets::still_value, crate::proofs::Scopes::still_scope, crate::proofs::Scopes::tree_scope, hw_pool::proofs::Frames::inner_one), unfolding(crate::specs::Nets::net_value))]
pub fn put(pool: &mut Pool, op: Op, width: u32, level: u32) -> Net
    requires spare { 1 ≤ pool.old.spare }
    requires width { IsWidth width }
    requires children { AreChildren pool.old.nodes (length pool.old.nodes) level op }
    requires fits { Fits (of_op (tree_of pool.old.nodes) width op) }
    ensures value { (env : Env) → net_value env pool.new result ≡ value env (of_op (tree_of pool.old.nodes) width op) }
    ensures tree { tree_of pool.new.nodes result.id.0 ≡ of_op (tree_of pool.old.nodes) width op }
    ensures grown { length pool.old.nodes < length pool.new.nodes → result.id.0 ≡ length pool.old.nodes }
    ensures node { node_at pool.new.nodes result.id.0 ≡ record { op = op; width = width; level = level } }
    ensures pool { IsPool pool.new.nodes }
    ensures net { IsNet pool.new result }
    ensures scope { (s : Scope) → Takes s level (of_op (tree_of pool.old.nodes) width op) → InScope s pool.new result }
    ensures width { result.width ≡ width }
    ensures level { result.level ≡ level }
    ensures adds { Adds pool.old pool.new 1 }
    ensures inner { IsInner op → AddsInner pool.old.nodes pool.new.nodes }
    ensures kept { (s : Scope) (n : Net) → InScope s pool.old n → InScope s pool.new n }
    ensures nets { (n : Net) → IsNet pool.old n → IsNet pool.new n }
    ensures values { (env : Env) (n : Net) → IsNet pool.old n → net_value env pool.new n ≡ net_value env pool.old n }
{
    let id = pool.add(Node { op, width, level });
    Net { id, width, level }
}

/// This number, of this width.
#[tactic(auto, using(crate::proofs::Nets::still_value, crate::proofs::Scopes::still_scope, crate::proofs::Scopes::takes_at), unfolding(crate::specs::Nets::net_value))]
pub fn lit(pool: &mut Pool, width: u32, value: u64) -> Net
    requires spare { 1 ≤ pool.old.spare }
    requires width { IsWidth width }
    requires within { value < 2 ^ width }
    ensures value { (env : Env) → net_value env pool.new result ≡ value }
    ensures net { IsNet pool.new result }
    ensures scope { (s : Scope) → InScope s pool.new result }
    ensures width { result.width ≡ width }
    ensures level { result.level ≡ 0 }
    ensures adds { Adds pool.old pool.new 1 }
    ensures inner { AddsInner pool.old.nodes pool.new.nodes }
    ensures kept { (s : Scope) (n : Net) → InScope s pool.old n → InScope s pool.new n }
    ensures nets { (n : Net) → IsNet pool.old n → IsNet pool.new n }
    ensures values { (env : Env) (n : Net) → IsNet pool.old n → net_value env pool.new n ≡ net_value env pool.old n }
{
    put(pool, Op::Lit(value), width, 0)
}

/// Each bit of `a` turned over.
#[tactic(auto, using(crate::proofs::Nets::still_value, crate::proofs::Scopes::still_scope, crate::proofs::Scopes::takes_at), unfolding(crate::specs::Nets::net_value))]
pub fn not(pool: &mut Pool, a: Net) -> Net
    requires spare { 1 ≤ pool.old.spare }
    requires a { IsNet pool.old a }
    ensures value { (env : Env) → net_value env pool.new result ≡ not_of a.width (net_value env pool.old a) }
    ensures net { IsNet pool.new result }
    ensures scope { (s : Scope) → InScope s pool.old a → InScope s pool.new result }
    ensures width { result.width ≡ a.width }
    ensures level { result.level ≡ a.level }
    ensures adds { Adds pool.old pool.new 1 }
    ensures inner { AddsInner pool.old.nodes pool.new.nodes }
    ensures kept { (s : Scope) (n : Net) → InScope s pool.old n → InScope s pool.new n }
    ensures nets { (n : Net) → IsNet pool.old n → IsNet pool.new n }
    ensures values { (env : Env) (n : Net) → IsNet pool.old n → net_value env pool.new n ≡ net_value env pool.old n }
{
    put(pool, Op::Not(a.id), a.width, a.level)
}

/// Bitwise "and" of nets of one width.
#[tactic(auto, using(crate::proofs::Nets::still_value, crate::proofs::Scopes::still_scope, crate::proofs::Scopes::takes_at), unfolding(crate::specs::Nets::net_value))]
pub fn and(pool: &mut Pool, a: Net, b: Net) -> Net
    requires spare { 1 ≤ pool.old.spare }
    requires a { IsNet pool.old a }
    requires b { IsNet pool.old b }
    requires equal { b.width ≡ a.width }
    ensures value { (env : Env) → net_value env pool.new result ≡ bit_and (net_value env pool.old a) (net_value env pool.old b) }
    ensures net { IsNet pool.new result }
    ensures scope { (s : Scope) → InScope s pool.old a → InScope s pool.old b → InScope s pool.new result }
    ensures width { result.width ≡ a.width }
    ensures level { result.level ≡ max a.level b.level }
    ensures adds { Adds pool.old pool.new 1 }
    ensures inner { AddsInner pool.old.nodes pool.new.nodes }
    ensures kept { (s : Scope) (n : Net) → InScope s pool.old n → InScope s pool.new n }
    ensures nets { (n : Net) → IsNet pool.old n → IsNet pool.new n }
    ensures values { (env : Env) (n : Net) → IsNet pool.old n → net_value env pool.new n ≡ net_value env pool.old n }
{
    put(pool, Op::And(a.id, b.id), a.width, a.level.max(b.level))
}

/// Bitwise "or" of nets of one width.
#[tactic(auto, using(crate::proofs::Nets::still_value, crate::proofs::Scopes::still_scope, crate::proofs::Scopes::takes_at), unfolding(crate::specs::Nets::net_value))]
pub fn or(pool: &mut Pool, a: Net, b: Net) -> Net
    requires spare { 1 ≤ pool.old.spare }
    requires a { IsNet pool.old a }
    requires b { IsNet pool.old b }
    requires equal { b.width ≡ a.width }
    ensures value { (env : Env) → net_value env pool.new result ≡ bit_or (net_value env pool.old a) (net_value env pool.old b) }
    ensures net { IsNet pool.new result }
    ensures scope { (s : Scope) → InScope s pool.old a → InScope s pool.old b → InScope s pool.new result }
    ensures width { result.width ≡ a.width }
    ensures level { result.level ≡ max a.level b.level }
    ensures adds { Adds pool.old pool.new 1 }
    ensures inner { AddsInner pool.old.nodes pool.new.nodes }
    ensures kept { (s : Scope) (n : Net) → InScope s pool.old n → InScope s pool.new n }
    ensures nets { (n : Net) → IsNet pool.old n → IsNet pool.new n }
    ensures values { (env : Env) (n : Net) → IsNet pool.old n → net_value env pool.new n ≡ net_value env pool.old n }
{
    put(pool, Op::Or(a.id, b.id), a.width, a.level.max(b.level))
}

/// Bitwise "exclusive or" of nets of one width.
#[tactic(auto, using(crate::proofs::Nets::still_value, crate::proofs::Scopes::still_scope, crate::proofs::Scopes::takes_at), unfolding(crate::specs::Nets::net_value))]
pub fn xor(pool: &mut Pool, a: Net, b: Net) -> Net
    requires spare { 1 ≤ pool.old.spare }
    requires a { IsNet pool.old a }
    requires b { IsNet pool.old b }
    requires equal { b.width ≡ a.width }
    ensures value { (env : Env) → net_value env pool.new result ≡ bit_xor (net_value env pool.old a) (net_value env pool.old b) }
    ensures net { IsNet pool.new result }
    ensures scope { (s : Scope) → InScope s pool.old a → InScope s pool.old b → InScope s pool.new result }
    ensures width { result.width ≡ a.width }
    ensures level { result.level ≡ max a.level b.level }
    ensures adds { Adds pool.old pool.new 1 }
    ensures inner { AddsInner pool.old.nodes pool.new.nodes }
    ensures kept { (s : Scope) (n : Net) → InScope s pool.old n → InScope s pool.new n }
    ensures nets { (n : Net) → IsNet pool.old n → IsNet pool.new n }
    ensures values { (env : Env) (n : Net) → IsNet pool.old n → net_value env pool.new n ≡ net_value env pool.old n }
{
    put(pool, Op::Xor(a.id, b.id), a.width, a.level.max(b.level))
}

/// The sum of nets of one width, modulo 2 ^ the width.
#[tactic(auto, using(crate::proofs::Nets::still_value, crate::proofs::Scopes::still_scope, crate::proofs::Scopes::takes_at), unfolding(crate::specs::Nets::net_value))]
pub fn add(pool: &mut Pool, a: Net, b: Net) -> Net
    requires spare { 1 ≤ pool.old.spare }
    requires a { IsNet pool.old a }
    requires b { IsNet pool.old b }
    requires equal { b.width ≡ a.width }
    ensures value { (env : Env) → net_value env pool.new result ≡ add_of a.width (net_value env pool.old a) (net_value env pool.old b) }
    ensures net { IsNet pool.new result }
    ensures scope { (s : Scope) → InScope s pool.old a → InScope s pool.old b → InScope s pool.new result }
    ensures width { result.width ≡ a.width }
    ensures level { result.level ≡ max a.level b.level }
    ensures adds { Adds pool.old pool.new 1 }
    ensures inner { AddsInner pool.old.nodes pool.new.nodes }
    ensures kept { (s : Scope) (n : Net) → InScope s pool.old n → InScope s pool.new n }
    ensures nets { (n : Net) → IsNet pool.old n → IsNet pool.new n }
    ensures values { (env : Env) (n : Net) → IsNet pool.old n → net_value env pool.new n ≡ net_value env pool.old n }
{
    put(pool, Op::Add(a.id, b.id), a.width, a.level.max(b.level))
}

/// The difference of nets of one width, modulo 2 ^ the width.
#[tactic(auto, using(crate::proofs::Nets::still_value, crate::proofs::Scopes::still_scope, crate::proofs::Scopes::takes_at), unfolding(crate::specs::Nets::net_value))]
pub fn sub(pool: &mut Pool, a: Net, b: Net) -> Net
    requires spare { 1 ≤ pool.old.spare }
    requires a { IsNet pool.old a }
    requires b { IsNet pool.old b }
    requires equal { b.width ≡ a.width }
    ensures value { (env : Env) → net_value env pool.new result ≡ sub_of a.width (net_value env pool.old a) (net_value env pool.old b) }
    ensures net { IsNet pool.new result }
    ensures scope { (s : Scope) → InScope s pool.old a → InScope s pool.old b → InScope s pool.new result }
    ensures width { result.width ≡ a.width }
    ensures level { result.level ≡ max a.level b.level }
    ensures adds { Adds pool.old pool.new 1 }
    ensures inner { AddsInner pool.old.nodes pool.new.nodes }
    ensures kept { (s : Scope) (n : Net) → InScope s pool.old n → InScope s pool.new n }
    ensures nets { (n : Net) → IsNet pool.old n → IsNet pool.new n }
    ensures values { (env : Env) (n : Net) → IsNet pool.old n → net_value env pool.new n ≡ net_value env pool.old n }
{
    put(pool, Op::Sub(a.id, b.id), a.width, a.level.max(b.level))
}

/// One bit: 1 where nets of one width are equal.
#[tactic(auto, using(crate::proofs::Nets::still_value, crate::proofs::Scopes::still_scope, crate::proofs::Scopes::takes_at), unfolding(crate::specs::Nets::net_value))]
pub fn eq(pool: &mut Pool, a: Net, b: Net) -> Net
    requires spare { 1 ≤ pool.old.spare }
    requires a { IsNet pool.old a }
    requires b { IsNet pool.old b }
    requires equal { b.width ≡ a.width }
    ensures value { (env : Env) → net_value env pool.new result ≡ one_if (eqb (net_value env pool.old a) (net_value env pool.old b)) }
    ensures net { IsNet pool.new result }
    ensures scope { (s : Scope) → InScope s pool.old a → InScope s pool.old b → InScope s pool.new result }
    ensures width { result.width ≡ 1 }
    ensures level { result.level ≡ max a.level b.level }
    ensures adds { Adds pool.old pool.new 1 }
    ensures inner { AddsInner pool.old.nodes pool.new.nodes }
    ensures kept { (s : Scope) (n : Net) → InScope s pool.old n → InScope s pool.new n }
    ensures nets { (n : Net) → IsNet pool.old n → IsNet pool.new n }
    ensures values { (env : Env) (n : Net) → IsNet pool.old n → net_value env pool.new n ≡ net_value env pool.old n }
{
    put(pool, Op::Eq(a.id, b.id), 1, a.level.max(b.level))
}

/// One bit: 1 where `a` is less than `b`, a net of its width, as unsigned numbers.
#[tactic(auto, using(crate::proofs::Nets::still_value, crate::proofs::Scopes::still_scope, crate::proofs::Scopes::takes_at), unfolding(crate::specs::Nets::net_value))]
pub fn ltu(pool: &mut Pool, a: Net, b: Net) -> Net
    requires spare { 1 ≤ pool.old.spare }
    requires a { IsNet pool.old a }
    requires b { IsNet pool.old b }
    requires equal { b.width ≡ a.width }
    ensures value { (env : Env) → net_value env pool.new result ≡ one_if (ltb (net_value env pool.old a) (net_value env pool.old b)) }
    ensures net { IsNet pool.new result }
    ensures scope { (s : Scope) → InScope s pool.old a → InScope s pool.old b → InScope s pool.new result }
    ensures width { result.width ≡ 1 }
    ensures level { result.level ≡ max a.level b.level }
    ensures adds { Adds pool.old pool.new 1 }
    ensures inner { AddsInner pool.old.nodes pool.new.nodes }
    ensures kept { (s : Scope) (n : Net) → InScope s pool.old n → InScope s pool.new n }
    ensures nets { (n : Net) → IsNet pool.old n → IsNet pool.new n }
    ensures values { (env : Env) (n : Net) → IsNet pool.old n → net_value env pool.new n ≡ net_value env pool.old n }
{
    put(pool, Op::Ltu(a.id, b.id), 1, a.level.max(b.level))
}

/// `a` where the one bit `c` is 1, else `b`, a net of the same width.
#[tactic(auto, using(crate::proofs::Nets::still_value, crate::proofs::Scopes::still_scope, crate::proofs::Scopes::takes_at), unfolding(crate::specs::Nets::net_value))]
pub fn mux(pool: &mut Pool, c: Net, a: Net, b: Net) -> Net
    requires spare { 1 ≤ pool.old.spare }
    requires c { IsNet pool.old c }
    requires bit { c.width ≡ 1 }
    requires a { IsNet pool.old a }
    requires b { IsNet pool.old b }
    requires equal { b.width ≡ a.width }
    ensures value { (env : Env) → net_value env pool.new result ≡ choose (net_value env pool.old c) (net_value env pool.old a) (net_value env pool.old b) }
    ensures net { IsNet pool.new result }
    ensures scope { (s : Scope) → InScope s pool.old c → InScope s pool.old a → InScope s pool.old b → InScope s pool.new result }
    ensures width { result.width ≡ a.width }
    ensures level { result.level ≡ max (max c.level a.level) b.level }
    ensures adds { Adds pool.old pool.new 1 }
    ensures inner { AddsInner pool.old.nodes pool.new.nodes }
    ensures kept { (s : Scope) (n : Net) → InScope s pool.old n → InScope s pool.new n }
    ensures nets { (n : Net) → IsNet pool.old n → IsNet pool.new n }
    ensures values { (env : Env) (n : Net) → IsNet pool.old n → net_value env pool.new n ≡ net_value env pool.old n }
{
    let level = c.level.max(a.level).max(b.level);
    put(pool, Op::Mux(c.id, a.id, b.id), a.width, level)
}

/// `a` above `b`, of at most 64 bits together.
#[tactic(auto, using(crate::proofs::Nets::still_value, crate::proofs::Scopes::still_scope, crate::proofs::Scopes::takes_at), unfolding(crate::specs::Nets::net_value))]
pub fn cat(pool: &mut Pool, a: Net, b: Net) -> Net
    requires spare { 1 ≤ pool.old.spare }
    requires a { IsNet pool.old a }
    requires b { IsNet pool.old b }
    requires sum { a.width + b.width ≤ 64 }
    ensures value { (env : Env) → net_value env pool.new result ≡ join_of b.width (net_value env pool.old a) (net_value env pool.old b) }
    ensures net { IsNet pool.new result }
    ensures scope { (s : Scope) → InScope s pool.old a → InScope s pool.old b → InScope s pool.new result }
    ensures width { result.width ≡ a.width + b.width }
    ensures level { result.level ≡ max a.level b.level }
    ensures adds { Adds pool.old pool.new 1 }
    ensures inner { AddsInner pool.old.nodes pool.new.nodes }
    ensures kept { (s : Scope) (n : Net) → InScope s pool.old n → InScope s pool.new n }
    ensures nets { (n : Net) → IsNet pool.old n → IsNet pool.new n }
    ensures values { (env : Env) (n : Net) → IsNet pool.old n → net_value env pool.new n ≡ net_value env pool.old n }
{
    put(
        pool,
        Op::Cat(a.id, b.id),
        a.width + b.width,
        a.level.max(b.level),
    )
}

/// Bits `hi` to `lo` of `a`. Bit 0 is the lowest.
#[tactic(auto, using(crate::proofs::Nets::still_value, crate::proofs::Scopes::still_scope, crate::proofs::Scopes::takes_at), unfolding(crate::specs::Nets::net_value))]
pub fn slice(pool: &mut Pool, a: Net, hi: u32, lo: u32) -> Net
    requires spare { 1 ≤ pool.old.spare }
    requires a { IsNet pool.old a }
    requires ordered { lo ≤ hi }
    requires within { hi < a.width }
    ensures value { (env : Env) → net_value env pool.new result ≡ bits_of (net_value env pool.old a) hi lo }
    ensures net { IsNet pool.new result }
    ensures scope { (s : Scope) → InScope s pool.old a → InScope s pool.new result }
    ensures width { result.width ≡ hi + 1 - lo }
    ensures level { result.level ≡ a.level }
    ensures adds { Adds pool.old pool.new 1 }
    ensures inner { AddsInner pool.old.nodes pool.new.nodes }
    ensures kept { (s : Scope) (n : Net) → InScope s pool.old n → InScope s pool.new n }
    ensures nets { (n : Net) → IsNet pool.old n → IsNet pool.new n }
    ensures values { (env : Env) (n : Net) → IsNet pool.old n → net_value env pool.new n ≡ net_value env pool.old n }
{
    put(pool, Op::Slice(a.id, hi, lo), hi + 1 - lo, a.level)
}
