ghost use Rattle.std.specs.Prelude.{◌≡◌, ◌<◌, ◌≤◌, get_or, length};
ghost use Rattle.hw_pool.specs.Nodes.{node_at};
ghost use Rattle.hw_cycle.specs.Evaluate.{CanEvaluate, env_here, op_value};

use crate::array::Array;
use crate::numbers::{chosen, difference, joined, part, sum, truth, turned};
use crate::ports::input_place;
use hw_pool::{NodeId, Op, Pool};

/// The width of a node.
#[inline]
fn width_at(pool: &Pool, node: NodeId) -> u32
    requires { node.0 < length pool.now.nodes }
    ensures { result ≡ (node_at pool.now.nodes node.0).width }
{
    pool.get(node).width
}

/// What the nodes of a module take from outside in a cycle, but for its forward wires.
#[derive(Drop)]
pub(crate) struct Taken<'a> {
    pub(crate) ins: &'a [u64],
    pub(crate) regs: &'a [u64],
    pub(crate) cells: &'a [Array],
}

/// The value of an operator, from those of its children.
pub(crate) fn value_of(op: Op, pool: &Pool, taken: &Taken<'_>, wires: &[u64], values: &[u64]) -> u64
    requires can { CanEvaluate (record { nodes = length pool.now.nodes; wires = length wires.now; regs = length taken.now.regs.now; cells = taken.now.cells.now }) (λ k. (node_at pool.now.nodes k).width) (λ k. get_or values.now k 0) op }
    requires ins { length taken.now.ins.now ≡ 13 }
    requires room { length pool.now.nodes ≤ length values.now }
    ensures { result ≡ op_value (env_here taken.now.ins.now taken.now.regs.now taken.now.cells.now wires.now) (λ k. (node_at pool.now.nodes k).width) (λ k. get_or values.now k 0) op }
{
    match op {
        Op::Lit(value) => value,
        Op::Input(port) => taken.ins[input_place(port) as usize],
        Op::Wire(wire) => wires[wire as usize],
        Op::Reg(reg) => taken.regs[reg as usize],
        Op::Not(a) => turned(width_at(pool, a), values[a.0 as usize]),
        Op::And(a, b) => values[a.0 as usize] & values[b.0 as usize],
        Op::Or(a, b) => values[a.0 as usize] | values[b.0 as usize],
        Op::Xor(a, b) => values[a.0 as usize] ^ values[b.0 as usize],
        Op::Add(a, b) => sum(
            width_at(pool, a),
            values[a.0 as usize],
            values[b.0 as usize],
        ),
        Op::Sub(a, b) => difference(
            width_at(pool, a),
            values[a.0 as usize],
            values[b.0 as usize],
        ),
        Op::Eq(a, b) => truth(values[a.0 as usize] == values[b.0 as usize]),
        Op::Ltu(a, b) => truth(values[a.0 as usize] < values[b.0 as usize]),
        Op::Mux(c, a, b) => chosen(
            values[c.0 as usize],
            values[a.0 as usize],
            values[b.0 as usize],
        ),
        Op::Cat(a, b) => joined(
            width_at(pool, b),
            values[a.0 as usize],
            values[b.0 as usize],
        ),
        Op::Slice(a, high, low) => part(values[a.0 as usize], high, low),
        Op::Read(array, a) => taken.cells[array as usize].get(values[a.0 as usize]),
    }
}
