ghost use Rattle.std.specs.Prelude.{◌≡◌, ◌≤◌};
ghost use Rattle.hw_expr.specs.Nets.{IsNet};

use hw_expr::{
    Net, add, and, cat, eq, lts, ltu, mux, mux_tree, not, one_hot, or, put, slice, sra_by, sub, xor,
};
use hw_pool::{NodeId, Op, Pool};
use std::alloc::{AllocError, Global};

/// A node's value and its width.
#[derive(Clone, Copy)]
struct Known {
    value: u64,
    width: u32,
}

fn at(known: &[Known], id: NodeId) -> Known {
    match known.get(id.0 as usize) {
        Some(one) => *one,
        None => Known { value: 0, width: 1 },
    }
}

fn number(test: bool) -> u64 {
    if test { 1 } else { 0 }
}

/// The low bits of a number, from 1 to 64 of them.
fn low(value: u64, width: u32) -> u64 {
    value & u64::MAX.wrapping_shr(64_u32.wrapping_sub(width))
}

/// The value of an operator, by the machine's own operators.
fn computed(known: &[Known], inputs: &[u64], op: Op) -> u64 {
    match op {
        Op::Lit(value) => value,
        Op::Input(port) => match inputs.get(port as usize) {
            Some(value) => *value,
            None => 0,
        },
        Op::Not(a) => low(!at(known, a).value, at(known, a).width),
        Op::And(a, b) => at(known, a).value & at(known, b).value,
        Op::Or(a, b) => at(known, a).value | at(known, b).value,
        Op::Xor(a, b) => at(known, a).value ^ at(known, b).value,
        Op::Add(a, b) => low(
            at(known, a).value.wrapping_add(at(known, b).value),
            at(known, a).width,
        ),
        Op::Sub(a, b) => low(
            at(known, a).value.wrapping_sub(at(known, b).value),
            at(known, a).width,
        ),
        Op::Eq(a, b) => number(at(known, a).value == at(known, b).value),
        Op::Ltu(a, b) => number(at(known, a).value < at(known, b).value),
        Op::Mux(c, a, b) => {
            if at(known, c).value == 1 {
                at(known, a).value
            } else {
                at(known, b).value
            }
        }
        Op::Cat(a, b) => at(known, a).value.wrapping_shl(at(known, b).width) | at(known, b).value,
        Op::Slice(a, hi, lo) => low(
            at(known, a).value.wrapping_shr(lo),
            hi.wrapping_sub(lo).wrapping_add(1),
        ),
        _ => 0,
    }
}

/// The value of a net, where the inputs have these values.
fn value(alloc: Global, pool: &Pool, inputs: &[u64], net: Net) -> Result<u64, AllocError> {
    let mut known = Vec::new(alloc);
    for k in 0..pool.live() {
        let node = *pool.get(NodeId(k));
        let value = computed(&known, inputs, node.op);
        known.push(Known {
            value,
            width: node.width,
        })?;
    }
    Ok(at(&known, net.id).value)
}

/// A call of this crate.
#[derive(Clone, Copy)]
enum Call {
    Not,
    And,
    Or,
    Xor,
    Add,
    Sub,
    Eq,
    Ltu,
    Lts,
    Cat,
    Slice,
    Mux,
    SraBy,
    MuxTree,
    OneHot,
}

/// A call over two nets of eight bits; the lowest bit of `b` is the one that chooses.
fn called(pool: &mut Pool, call: Call, a: Net, b: Net) -> Net
    requires spare { 100 ≤ pool.old.spare }
    requires a { IsNet pool.old a }
    requires b { IsNet pool.old b }
    requires wide { a.width ≡ 8 }
    requires other { b.width ≡ 8 }
{
    match call {
        Call::Not => not(pool, a),
        Call::And => and(pool, a, b),
        Call::Or => or(pool, a, b),
        Call::Xor => xor(pool, a, b),
        Call::Add => add(pool, a, b),
        Call::Sub => sub(pool, a, b),
        Call::Eq => eq(pool, a, b),
        Call::Ltu => ltu(pool, a, b),
        Call::Lts => lts(pool, a, b),
        Call::Cat => cat(pool, a, b),
        Call::Slice => slice(pool, a, 6, 3),
        Call::Mux => {
            let test = slice(pool, b, 0, 0);
            mux(pool, test, a, b)
        }
        Call::SraBy => sra_by(pool, a, 3),
        Call::MuxTree => {
            let index = slice(pool, b, 0, 0);
            mux_tree(pool, index, &[a, b])
        }
        Call::OneHot => {
            let number = slice(pool, a, 2, 0);
            one_hot(pool, number)
        }
    }
}

/// Calls, and the value of each over b4 and 4d, over 4d and b4, and over 7 and 7.
const CALLS: &[(Call, [u64; 3])] = &[
    (Call::Not, [0x4b, 0xb2, 0xf8]),
    (Call::And, [0x04, 0x04, 0x07]),
    (Call::Or, [0xfd, 0xfd, 0x07]),
    (Call::Xor, [0xf9, 0xf9, 0x00]),
    (Call::Add, [0x01, 0x01, 0x0e]),
    (Call::Sub, [0x67, 0x99, 0x00]),
    (Call::Eq, [0, 0, 1]),
    (Call::Ltu, [0, 1, 0]),
    (Call::Lts, [1, 0, 0]),
    (Call::Cat, [0xb44d, 0x4db4, 0x0707]),
    (Call::Slice, [0x6, 0x9, 0x0]),
    (Call::Mux, [0xb4, 0xb4, 0x07]),
    (Call::SraBy, [0xf6, 0x09, 0x00]),
    (Call::MuxTree, [0x4d, 0x4d, 0x07]),
    (Call::OneHot, [0x10, 0x20, 0x80]),
];

/// The values of a call.
fn values(alloc: Global, call: Call) -> Result<[u64; 3], AllocError> {
    let mut pool = Pool::new(alloc);
    if pool.reserve(110).is_err() {
        return Err(AllocError);
    }
    let a = put(&mut pool, Op::Input(0), 8, 3);
    let b = put(&mut pool, Op::Input(1), 8, 5);
    let net = called(&mut pool, call, a, b);
    Ok([
        value(alloc, &pool, &[0xb4, 0x4d], net)?,
        value(alloc, &pool, &[0x4d, 0xb4], net)?,
        value(alloc, &pool, &[7, 7], net)?,
    ])
}

/// Whether each call has its values.
pub fn values_are_right(alloc: Global) -> Result<bool, AllocError> {
    for (call, wanted) in CALLS {
        if values(alloc, *call)? != *wanted {
            return Ok(false);
        }
    }
    Ok(true)
}
