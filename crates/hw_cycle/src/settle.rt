ghost use Rattle.std.specs.Prelude.{◌≡◌, ℕ, ◌+◌, ◌^◌, ◌<◌, ◌≤◌, ◌↔◌, false, get_or, length, Bool, IsTrue, List, MatchOption, Some, true};
ghost use Rattle.hw_pool.specs.Nodes.{EachChild, IsPool, node_at};
ghost use Rattle.hw_module.specs.Rows.{array_at, wire_at};
ghost use Rattle.hw_module.specs.Checked.{IsChecked};
ghost use Rattle.hw_module.specs.Cycle.{Held};
ghost use Rattle.hw_module.specs.Reached.{AreMarks};
ghost use Rattle.hw_cycle.specs.State.{cells_at, held_in};
ghost use Rattle.hw_cycle.specs.Inputs.{ins_of};
ghost use Rattle.hw_cycle.specs.Levels.{
  AreHeld,
  AreShaped,
  AreTops,
  IsLive,
  IsMarked,
  NodesDone,
  OfWire,
  WiresDone,
  driven_by,
  node_value,
  op_top,
};

use crate::value::{Taken, value_of};
use hw_expr::Net;
use hw_module::{Module, WireRow};
use hw_pool::{NodeId, Op, Pool};

/// Marks of nodes, and the highest levels of the forward wires in the trees of those that are marked.
#[derive(Drop)]
pub(crate) struct Order<'a> {
    pub(crate) marks: &'a [bool],
    pub(crate) tops: &'a [u32],
}

/// The highest level of the forward wires in an operator's tree, from those of its children's trees.
fn top_of_op(op: Op, rows: &[WireRow], tops: &[u32]) -> u32
    requires children { EachChild (λ c. c < length tops.now) op }
    requires wire { OfWire (λ w. w < length rows.now) op }
    ensures { result ≡ op_top rows.now (λ c. get_or tops.now c 0) op }
{
    match op {
        Op::Lit(_) | Op::Input(_) | Op::Reg(_) => 0,
        Op::Wire(wire) => rows[wire as usize].level,
        Op::Not(a) | Op::Slice(a, _, _) | Op::Read(_, a) => tops[a.0 as usize],
        Op::And(a, b)
        | Op::Or(a, b)
        | Op::Xor(a, b)
        | Op::Add(a, b)
        | Op::Sub(a, b)
        | Op::Eq(a, b)
        | Op::Ltu(a, b)
        | Op::Cat(a, b) => tops[a.0 as usize].max(tops[b.0 as usize]),
        Op::Mux(c, a, b) => tops[c.0 as usize].max(tops[a.0 as usize].max(tops[b.0 as usize])),
    }
}

/// Finds the highest level of the forward wires in the tree of each marked node.
pub(crate) fn find_tops(m: &Module, pool: &Pool, marks: &[bool], tops: &mut [u32])
    requires pool { IsPool pool.now.nodes }
    requires checked { IsChecked m.now pool.now }
    requires marks { AreMarks m.now pool.now.nodes marks.now }
    requires room { length pool.now.nodes ≤ length tops.old }
    ensures { AreTops m.now pool.now.nodes marks.now (length pool.now.nodes) tops.new }
{
    let rows = m.wires().as_slice();
    for k in 0..pool.live() {
        if marks[k as usize] {
            let op = pool.get(NodeId(k)).op;
            tops[k as usize] = top_of_op(op, rows, tops);
        }
    }
}

/// The value of a driver, from the values of the nodes.
pub(crate) fn driven(values: &[u64], driver: Option<Net>) -> u64
    requires { IsLive (length values.now) driver }
    ensures { result ≡ driven_by values.now driver }
{
    match driver {
        Some(net) => values[net.id.0 as usize],
        None => 0,
    }
}

/// Gives the forward wires of a level their values.
fn settle_wires(
    m: &Module,
    pool: &Pool,
    marks: &[bool],
    level: u32,
    values: &[u64],
    wires: &mut [u64],
)
    requires pool { IsPool pool.now.nodes }
    requires checked { IsChecked m.now pool.now }
    requires marks { AreMarks m.now pool.now.nodes marks.now }
    requires room { length pool.now.nodes ≤ length values.now }
    requires wires { length wires.old ≡ length m.now.wires }
    ensures { (s : Held) (ins : ℕ → ℕ) → NodesDone m.now pool.now.nodes s ins marks.now level 0 values.now
        → WiresDone m.now pool.now.nodes s ins marks.now level 0 wires.old
        → WiresDone m.now pool.now.nodes s ins marks.now (level + 1) 0 wires.new }
{
    let _ = pool;
    let _ = marks;
    let rows = m.wires().as_slice();
    for w in 0..rows.len() {
        let row = rows[w];
        if row.level == level {
            wires[w] = driven(values, row.driver);
        }
    }
}

/// Whether a node is marked and has this top level.
#[inline]
fn is_due(order: &Order<'_>, k: u32, level: u32) -> bool
    requires marks { k < length order.now.marks.now }
    requires tops { k < length order.now.tops.now }
    ensures { IsTrue result ↔ (IsMarked order.now.marks.now k × (get_or order.now.tops.now k 0 ≡ level)) }
{
    order.marks[k as usize] && order.tops[k as usize] == level
}

/// Gives the marked nodes of a top level their values.
fn settle_nodes(
    m: &Module,
    pool: &Pool,
    order: &Order<'_>,
    level: u32,
    taken: &Taken<'_>,
    wires: &[u64],
    values: &mut [u64],
)
    requires pool { IsPool pool.now.nodes }
    requires checked { IsChecked m.now pool.now }
    requires marks { AreMarks m.now pool.now.nodes order.now.marks.now }
    requires tops { AreTops m.now pool.now.nodes order.now.marks.now (length pool.now.nodes) order.now.tops.now }
    requires many { length pool.now.nodes ≤ length order.now.tops.now }
    requires room { length pool.now.nodes ≤ length values.old }
    requires ins { length taken.now.ins.now ≡ 13 }
    requires shaped { AreShaped m.now (length wires.now) (length taken.now.regs.now) taken.now.cells.now }
    requires held { AreHeld m.now (held_in taken.now.regs.now taken.now.cells.now) (ins_of taken.now.ins.now) }
    requires wires { WiresDone m.now pool.now.nodes (held_in taken.now.regs.now taken.now.cells.now) (ins_of taken.now.ins.now) order.now.marks.now (level + 1) 0 wires.now }
    requires nodes { NodesDone m.now pool.now.nodes (held_in taken.now.regs.now taken.now.cells.now) (ins_of taken.now.ins.now) order.now.marks.now level 0 values.old }
    ensures { NodesDone m.now pool.now.nodes (held_in taken.now.regs.now taken.now.cells.now) (ins_of taken.now.ins.now) order.now.marks.now (level + 1) 0 values.new }
{
    let _ = m;
    for k in 0..pool.live() {
        if is_due(order, k, level) {
            let op = pool.get(NodeId(k)).op;
            values[k as usize] = value_of(op, pool, taken, wires, values);
        }
    }
}

/// The next level above this one that a forward wire has.
fn next_level(rows: &[WireRow], level: u32) -> Option<u32>
    ensures above { (next : ℕ) → result ≡ Some next → level < next }
    ensures gap { MatchOption result ((w : ℕ) → w < length rows.now → (wire_at rows.now w).level ≤ level) (λ next. (w : ℕ) → w < length rows.now → (wire_at rows.now w).level < next → (wire_at rows.now w).level ≤ level) }
{
    let mut found: Option<u32> = None;
    for w in 0..rows.len() {
        let here = rows[w].level;
        if here > level && found.is_none_or(|next| here < next) {
            found = Some(here);
        }
    }
    found
}

/// Gives each marked node its value, level by level: first the forward wires of a level, then the nodes whose
/// trees have no forward wire above it.
pub(crate) fn settle(
    m: &Module,
    pool: &Pool,
    order: &Order<'_>,
    taken: &Taken<'_>,
    wires: &mut [u64],
    values: &mut [u64],
)
    requires pool { IsPool pool.now.nodes }
    requires checked { IsChecked m.now pool.now }
    requires marks { AreMarks m.now pool.now.nodes order.now.marks.now }
    requires tops { AreTops m.now pool.now.nodes order.now.marks.now (length pool.now.nodes) order.now.tops.now }
    requires many { length pool.now.nodes ≤ length order.now.tops.now }
    requires room { length pool.now.nodes ≤ length values.old }
    requires ins { length taken.now.ins.now ≡ 13 }
    requires shaped { AreShaped m.now (length wires.old) (length taken.now.regs.now) taken.now.cells.now }
    requires held { AreHeld m.now (held_in taken.now.regs.now taken.now.cells.now) (ins_of taken.now.ins.now) }
    ensures { (k : ℕ) → IsMarked order.now.marks.now k → get_or values.new k 0 ≡ node_value m.now pool.now.nodes (held_in taken.now.regs.now taken.now.cells.now) (ins_of taken.now.ins.now) order.now.marks.now k }
{
    let mut level = 0;
    'levels: loop {
        settle_wires(m, pool, order.marks, level, values, wires);
        settle_nodes(m, pool, order, level, taken, wires, values);
        match next_level(m.wires().as_slice(), level) {
            Some(next) => level = next,
            None => return,
        }
    }
}
