#![tactic(auto, using(crate::proofs::Has::net_of, crate::proofs::Has::has_of, crate::proofs::Has::value_is))]

ghost use Rattle.std.specs.Prelude.{◌≡◌, ℕ, ◌+◌, ◌-◌, ◌<◌, ◌≤◌, ◌^◌, bit_and, bit_or, bit_xor, eqb, ltb, max};
ghost use Rattle.core_words.specs.Values.{add_of, bits_of, choose, join_of, not_of, one_if, sub_of};
ghost use Rattle.hw_pool.specs.Meaning.{Env};
ghost use Rattle.hw_pool.specs.Scope.{Scope};
ghost use Rattle.hw_gates.specs.Places.{Has, IsIn, Step, value_in};

use hw_expr::Net;
use hw_pool::Pool;

/// This number, of this width, from 1 to 64.
pub fn lit(pool: &mut Pool, width: u32, value: u64) -> Net
    requires spare { 1 ≤ pool.old.spare }
    requires least { 1 ≤ width }
    requires most { width ≤ 64 }
    requires within { value < 2 ^ width }
    ensures value { (env : Env) → value_in env pool.new result ≡ value }
    ensures net { Has pool.new result }
    ensures scope { (s : Scope) → IsIn s pool.new result }
    ensures width { result.width ≡ width }
    ensures level { result.level ≡ 0 }
    ensures step { Step pool.old pool.new 1 }
{
    hw_expr::lit(pool, width, value)
}

/// Each bit of `a` turned over.
pub fn not(pool: &mut Pool, a: Net) -> Net
    requires spare { 1 ≤ pool.old.spare }
    requires a { Has pool.old a }
    ensures value { (env : Env) → value_in env pool.new result ≡ not_of a.width (value_in env pool.old a) }
    ensures net { Has pool.new result }
    ensures scope { (s : Scope) → IsIn s pool.old a → IsIn s pool.new result }
    ensures width { result.width ≡ a.width }
    ensures level { result.level ≡ a.level }
    ensures step { Step pool.old pool.new 1 }
{
    hw_expr::not(pool, a)
}

/// Bitwise "and" of nets of one width.
pub fn and(pool: &mut Pool, a: Net, b: Net) -> Net
    requires spare { 1 ≤ pool.old.spare }
    requires a { Has pool.old a }
    requires b { Has pool.old b }
    requires equal { b.width ≡ a.width }
    ensures value { (env : Env) → value_in env pool.new result ≡ bit_and (value_in env pool.old a) (value_in env pool.old b) }
    ensures net { Has pool.new result }
    ensures scope { (s : Scope) → IsIn s pool.old a → IsIn s pool.old b → IsIn s pool.new result }
    ensures width { result.width ≡ a.width }
    ensures level { result.level ≡ max a.level b.level }
    ensures step { Step pool.old pool.new 1 }
{
    hw_expr::and(pool, a, b)
}

/// Bitwise "or" of nets of one width.
pub fn or(pool: &mut Pool, a: Net, b: Net) -> Net
    requires spare { 1 ≤ pool.old.spare }
    requires a { Has pool.old a }
    requires b { Has pool.old b }
    requires equal { b.width ≡ a.width }
    ensures value { (env : Env) → value_in env pool.new result ≡ bit_or (value_in env pool.old a) (value_in env pool.old b) }
    ensures net { Has pool.new result }
    ensures scope { (s : Scope) → IsIn s pool.old a → IsIn s pool.old b → IsIn s pool.new result }
    ensures width { result.width ≡ a.width }
    ensures level { result.level ≡ max a.level b.level }
    ensures step { Step pool.old pool.new 1 }
{
    hw_expr::or(pool, a, b)
}

/// Bitwise "exclusive or" of nets of one width.
pub fn xor(pool: &mut Pool, a: Net, b: Net) -> Net
    requires spare { 1 ≤ pool.old.spare }
    requires a { Has pool.old a }
    requires b { Has pool.old b }
    requires equal { b.width ≡ a.width }
    ensures value { (env : Env) → value_in env pool.new result ≡ bit_xor (value_in env pool.old a) (value_in env pool.old b) }
    ensures net { Has pool.new result }
    ensures scope { (s : Scope) → IsIn s pool.old a → IsIn s pool.old b → IsIn s pool.new result }
    ensures width { result.width ≡ a.width }
    ensures level { result.level ≡ max a.level b.level }
    ensures step { Step pool.old pool.new 1 }
{
    hw_expr::xor(pool, a, b)
}

/// The sum of nets of one width, modulo 2 ^ the width.
pub fn add(pool: &mut Pool, a: Net, b: Net) -> Net
    requires spare { 1 ≤ pool.old.spare }
    requires a { Has pool.old a }
    requires b { Has pool.old b }
    requires equal { b.width ≡ a.width }
    ensures value { (env : Env) → value_in env pool.new result ≡ add_of a.width (value_in env pool.old a) (value_in env pool.old b) }
    ensures net { Has pool.new result }
    ensures scope { (s : Scope) → IsIn s pool.old a → IsIn s pool.old b → IsIn s pool.new result }
    ensures width { result.width ≡ a.width }
    ensures level { result.level ≡ max a.level b.level }
    ensures step { Step pool.old pool.new 1 }
{
    hw_expr::add(pool, a, b)
}

/// The difference of nets of one width, modulo 2 ^ the width.
pub fn sub(pool: &mut Pool, a: Net, b: Net) -> Net
    requires spare { 1 ≤ pool.old.spare }
    requires a { Has pool.old a }
    requires b { Has pool.old b }
    requires equal { b.width ≡ a.width }
    ensures value { (env : Env) → value_in env pool.new result ≡ sub_of a.width (value_in env pool.old a) (value_in env pool.old b) }
    ensures net { Has pool.new result }
    ensures scope { (s : Scope) → IsIn s pool.old a → IsIn s pool.old b → IsIn s pool.new result }
    ensures width { result.width ≡ a.width }
    ensures level { result.level ≡ max a.level b.level }
    ensures step { Step pool.old pool.new 1 }
{
    hw_expr::sub(pool, a, b)
}

/// One bit: 1 where nets of one width are equal.
pub fn eq(pool: &mut Pool, a: Net, b: Net) -> Net
    requires spare { 1 ≤ pool.old.spare }
    requires a { Has pool.old a }
    requires b { Has pool.old b }
    requires equal { b.width ≡ a.width }
    ensures value { (env : Env) → value_in env pool.new result ≡ one_if (eqb (value_in env pool.old a) (value_in env pool.old b)) }
    ensures net { Has pool.new result }
    ensures scope { (s : Scope) → IsIn s pool.old a → IsIn s pool.old b → IsIn s pool.new result }
    ensures width { result.width ≡ 1 }
    ensures level { result.level ≡ max a.level b.level }
    ensures step { Step pool.old pool.new 1 }
{
    hw_expr::eq(pool, a, b)
}

/// One bit: 1 where `a` is less than `b`, a net of its width, as unsigned numbers.
pub fn ltu(pool: &mut Pool, a: Net, b: Net) -> Net
    requires spare { 1 ≤ pool.old.spare }
    requires a { Has pool.old a }
    requires b { Has pool.old b }
    requires equal { b.width ≡ a.width }
    ensures value { (env : Env) → value_in env pool.new result ≡ one_if (ltb (value_in env pool.old a) (value_in env pool.old b)) }
    ensures net { Has pool.new result }
    ensures scope { (s : Scope) → IsIn s pool.old a → IsIn s pool.old b → IsIn s pool.new result }
    ensures width { result.width ≡ 1 }
    ensures level { result.level ≡ max a.level b.level }
    ensures step { Step pool.old pool.new 1 }
{
    hw_expr::ltu(pool, a, b)
}

/// `a` where the one bit `c` is 1, else `b`, a net of the same width.
pub fn mux(pool: &mut Pool, c: Net, a: Net, b: Net) -> Net
    requires spare { 1 ≤ pool.old.spare }
    requires c { Has pool.old c }
    requires bit { c.width ≡ 1 }
    requires a { Has pool.old a }
    requires b { Has pool.old b }
    requires equal { b.width ≡ a.width }
    ensures value { (env : Env) → value_in env pool.new result ≡ choose (value_in env pool.old c) (value_in env pool.old a) (value_in env pool.old b) }
    ensures net { Has pool.new result }
    ensures scope { (s : Scope) → IsIn s pool.old c → IsIn s pool.old a → IsIn s pool.old b → IsIn s pool.new result }
    ensures width { result.width ≡ a.width }
    ensures level { result.level ≡ max (max c.level a.level) b.level }
    ensures step { Step pool.old pool.new 1 }
{
    hw_expr::mux(pool, c, a, b)
}

/// `a` above `b`, of at most 64 bits together.
pub fn cat(pool: &mut Pool, a: Net, b: Net) -> Net
    requires spare { 1 ≤ pool.old.spare }
    requires a { Has pool.old a }
    requires b { Has pool.old b }
    requires sum { a.width + b.width ≤ 64 }
    ensures value { (env : Env) → value_in env pool.new result ≡ join_of b.width (value_in env pool.old a) (value_in env pool.old b) }
    ensures net { Has pool.new result }
    ensures scope { (s : Scope) → IsIn s pool.old a → IsIn s pool.old b → IsIn s pool.new result }
    ensures width { result.width ≡ a.width + b.width }
    ensures level { result.level ≡ max a.level b.level }
    ensures step { Step pool.old pool.new 1 }
{
    hw_expr::cat(pool, a, b)
}

/// Bits `hi` to `lo` of `a`. Bit 0 is the lowest.
pub fn slice(pool: &mut Pool, a: Net, hi: u32, lo: u32) -> Net
    requires spare { 1 ≤ pool.old.spare }
    requires a { Has pool.old a }
    requires ordered { lo ≤ hi }
    requires within { hi < a.width }
    ensures value { (env : Env) → value_in env pool.new result ≡ bits_of (value_in env pool.old a) hi lo }
    ensures net { Has pool.new result }
    ensures scope { (s : Scope) → IsIn s pool.old a → IsIn s pool.new result }
    ensures width { result.width ≡ hi + 1 - lo }
    ensures level { result.level ≡ a.level }
    ensures step { Step pool.old pool.new 1 }
{
    hw_expr::slice(pool, a, hi, lo)
}
