ghost use Rattle.std.specs.Prelude.{◌≤◌, IfSome};
ghost use Rattle.hw_pool.specs.Frame.{Adds};
ghost use Rattle.hw_pool.specs.Scope.{Scope};
ghost use Rattle.hw_expr.specs.Nets.{InScope, IsNet};
ghost use Rattle.hw_module.specs.Scope.{scope_of};
ghost use Rattle.sample_text.specs.Draft.{AreIn};

use core_words::mask_of;
use hw_expr::{Net, add, and, cat, eq, lit, ltu, mux, not, or, slice, sub, xor};
use hw_module::Module;
use hw_pool::Pool;

/// An operator over two nets.
#[derive(Clone, Copy, Debug)]
pub(crate) enum Binary {
    And,
    Or,
    Xor,
    Add,
    Sub,
    Eq,
    Ltu,
    Cat,
}

/// A node over nets that were made before, by their places.
#[derive(Clone, Copy, Debug)]
pub(crate) enum Make {
    /// A number of this width.
    Lit(u32, u64),
    /// The input `ib_cmd_ready`.
    Ready,
    /// The input `ib_rsp_data`.
    Data,
    /// The forward wire with this number.
    Wire(u32),
    /// The register with this number.
    Reg(u32),
    Not(usize),
    Binary(Binary, usize, usize),
    Mux(usize, usize, usize),
    Slice(usize, u32, u32),
    /// The cell of an array that a net names.
    Read(u32, usize),
}

/// A number, if it has at most so many bits.
fn number(pool: &mut Pool, width: u32, value: u64) -> Option<Net>
    requires spare { 1 ≤ pool.old.spare }
    ensures scope { (s : Scope) → IfSome result (λ n. InScope s pool.new n) }
    ensures kept { (s : Scope) (n : Net) → InScope s pool.old n → InScope s pool.new n }
    ensures adds { Adds pool.old pool.new 1 }
{
    if width < 1 || width > 64 || value > mask_of(width) {
        return None;
    }
    Some(lit(pool, width, value))
}

/// An operator over two nets, if their widths are those that it needs.
fn over_two(pool: &mut Pool, op: Binary, a: Net, b: Net) -> Option<Net>
    requires spare { 1 ≤ pool.old.spare }
    requires a { IsNet pool.old a }
    requires b { IsNet pool.old b }
    ensures scope { (s : Scope) → InScope s pool.old a → InScope s pool.old b → IfSome result (λ n. InScope s pool.new n) }
    ensures kept { (s : Scope) (n : Net) → InScope s pool.old n → InScope s pool.new n }
    ensures adds { Adds pool.old pool.new 1 }
{
    if let Binary::Cat = op {
        if a.width + b.width > 64 {
            return None;
        }
        return Some(cat(pool, a, b));
    }
    if a.width != b.width {
        return None;
    }
    match op {
        Binary::And => Some(and(pool, a, b)),
        Binary::Or => Some(or(pool, a, b)),
        Binary::Xor => Some(xor(pool, a, b)),
        Binary::Add => Some(add(pool, a, b)),
        Binary::Sub => Some(sub(pool, a, b)),
        Binary::Eq => Some(eq(pool, a, b)),
        Binary::Ltu => Some(ltu(pool, a, b)),
        Binary::Cat => None,
    }
}

/// A choice by one bit of two nets of one width.
fn choice(pool: &mut Pool, c: Net, a: Net, b: Net) -> Option<Net>
    requires spare { 1 ≤ pool.old.spare }
    requires c { IsNet pool.old c }
    requires a { IsNet pool.old a }
    requires b { IsNet pool.old b }
    ensures scope { (s : Scope) → InScope s pool.old c → InScope s pool.old a → InScope s pool.old b → IfSome result (λ n. InScope s pool.new n) }
    ensures kept { (s : Scope) (n : Net) → InScope s pool.old n → InScope s pool.new n }
    ensures adds { Adds pool.old pool.new 1 }
{
    if c.width != 1 || a.width != b.width {
        return None;
    }
    Some(mux(pool, c, a, b))
}

/// The net at a place, if there is one.
pub(crate) fn at(m: &Module, pool: &Pool, nets: &[Net], place: usize) -> Option<Net>
    requires { AreIn m.now pool.now nets.now }
    ensures { IfSome result (λ n. InScope (scope_of m.now) pool.now n) }
{
    if place < nets.len() {
        Some(nets[place])
    } else {
        None
    }
}

/// A node that takes something from outside.
#[tactic(auto, unfolding(hw_module::specs::Ports::port_at))]
fn leaf(m: &Module, pool: &mut Pool, make: Make) -> Option<Net>
    requires spare { 1 ≤ pool.old.spare }
    ensures scope { IfSome result (λ n. InScope (scope_of m.now) pool.new n) }
    ensures kept { (s : Scope) (n : Net) → InScope s pool.old n → InScope s pool.new n }
    ensures adds { Adds pool.old pool.new 1 }
{
    match make {
        Make::Ready => Some(m.input(pool, 3)),
        Make::Data => Some(m.input(pool, 7)),
        Make::Wire(wire) => {
            if wire as usize >= m.wires().len() {
                return None;
            }
            Some(m.wire_net(pool, wire))
        }
        Make::Reg(reg) => {
            if reg as usize >= m.regs().len() {
                return None;
            }
            Some(m.reg_net(pool, reg))
        }
        _ => None,
    }
}

/// Each bit turned over.
fn turned(pool: &mut Pool, a: Net) -> Option<Net>
    requires spare { 1 ≤ pool.old.spare }
    requires a { IsNet pool.old a }
    ensures scope { (s : Scope) → InScope s pool.old a → IfSome result (λ n. InScope s pool.new n) }
    ensures kept { (s : Scope) (n : Net) → InScope s pool.old n → InScope s pool.new n }
    ensures adds { Adds pool.old pool.new 1 }
{
    Some(not(pool, a))
}

/// The bits of a net from `high` to `low`, if it has them.
fn part(pool: &mut Pool, a: Net, high: u32, low: u32) -> Option<Net>
    requires spare { 1 ≤ pool.old.spare }
    requires a { IsNet pool.old a }
    ensures scope { (s : Scope) → InScope s pool.old a → IfSome result (λ n. InScope s pool.new n) }
    ensures kept { (s : Scope) (n : Net) → InScope s pool.old n → InScope s pool.new n }
    ensures adds { Adds pool.old pool.new 1 }
{
    if low > high || high >= a.width {
        return None;
    }
    Some(slice(pool, a, high, low))
}

/// The cell of an array that a net names, if it is as wide as the array's number of bits.
fn cell(m: &Module, pool: &mut Pool, array: u32, addr: Net) -> Option<Net>
    requires spare { 1 ≤ pool.old.spare }
    requires addr { InScope (scope_of m.now) pool.old addr }
    ensures scope { IfSome result (λ n. InScope (scope_of m.now) pool.new n) }
    ensures kept { (s : Scope) (n : Net) → InScope s pool.old n → InScope s pool.new n }
    ensures adds { Adds pool.old pool.new 1 }
{
    if array as usize >= m.arrays().len() || m.arrays()[array as usize].bits != addr.width {
        return None;
    }
    Some(m.read(pool, array, addr))
}

/// A node over nets that were made before.
pub(crate) fn over(m: &Module, pool: &mut Pool, nets: &[Net], make: Make) -> Option<Net>
    requires spare { 1 ≤ pool.old.spare }
    requires nets { AreIn m.now pool.old nets.now }
    ensures scope { IfSome result (λ n. InScope (scope_of m.now) pool.new n) }
    ensures kept { (s : Scope) (n : Net) → InScope s pool.old n → InScope s pool.new n }
    ensures adds { Adds pool.old pool.new 1 }
{
    match make {
        Make::Lit(width, value) => number(pool, width, value),
        Make::Not(a) => {
            let Some(a) = at(m, pool, nets, a) else {
                return None;
            };
            turned(pool, a)
        }
        Make::Binary(op, a, b) => {
            let (Some(a), Some(b)) = (at(m, pool, nets, a), at(m, pool, nets, b)) else {
                return None;
            };
            over_two(pool, op, a, b)
        }
        Make::Mux(c, a, b) => {
            let (Some(c), Some(a), Some(b)) = (
                at(m, pool, nets, c),
                at(m, pool, nets, a),
                at(m, pool, nets, b),
            ) else {
                return None;
            };
            choice(pool, c, a, b)
        }
        Make::Slice(a, high, low) => {
            let Some(a) = at(m, pool, nets, a) else {
                return None;
            };
            part(pool, a, high, low)
        }
        Make::Read(array, addr) => {
            let Some(addr) = at(m, pool, nets, addr) else {
                return None;
            };
            cell(m, pool, array, addr)
        }
        _ => leaf(m, pool, make),
    }
}
