ghost use Rattle.std.specs.Prelude.{◌≡◌, ℕ, ◌<◌, length};
ghost use Rattle.hw_module.specs.Checked.{DriversFit};
ghost use Rattle.hw_module.specs.Reached.{AreMarks};
ghost use Rattle.hw_reach.specs.Marking.{Closes, Marks, OfArrays, OfOuts, OfRegs, OfWires};

use crate::marks::{mark_children, mark_driver, mark_write};
use hw_expr::Net;
use hw_module::{ArrayRow, Module, RegRow, WireRow};
use hw_pool::{NodeId, Pool};

/// Marks the drivers of forward wires.
fn mark_wires(rows: &[WireRow], marks: &mut [bool])
    requires live { (k : ℕ) → OfWires rows.now (length rows.now) k → k < length marks.old }
    ensures { Marks (OfWires rows.now (length rows.now)) marks.old marks.new }
{
    for w in 0..rows.len() {
        mark_driver(rows[w].driver, marks);
    }
}

/// Marks the next values of registers.
fn mark_regs(rows: &[RegRow], marks: &mut [bool])
    requires live { (k : ℕ) → OfRegs rows.now (length rows.now) k → k < length marks.old }
    ensures { Marks (OfRegs rows.now (length rows.now)) marks.old marks.new }
{
    for r in 0..rows.len() {
        mark_driver(rows[r].next, marks);
    }
}

/// Marks what the writes of arrays are made of.
fn mark_arrays(rows: &[ArrayRow], marks: &mut [bool])
    requires live { (k : ℕ) → OfArrays rows.now (length rows.now) k → k < length marks.old }
    ensures { Marks (OfArrays rows.now (length rows.now)) marks.old marks.new }
{
    for a in 0..rows.len() {
        mark_write(rows[a].write, marks);
    }
}

/// Marks the drivers of ports.
fn mark_outs(outs: &[Option<Net>], marks: &mut [bool])
    requires live { (k : ℕ) → OfOuts outs.now (length outs.now) k → k < length marks.old }
    ensures { Marks (OfOuts outs.now (length outs.now)) marks.old marks.new }
{
    for port in 0..outs.len() {
        mark_driver(outs[port], marks);
    }
}

/// Marks all that marked nodes are made of. Children have lower numbers than their parents.
fn mark_parts(pool: &Pool, marks: &mut [bool])
    requires many { length marks.old ≡ length pool.now.nodes }
    ensures { Closes pool.now.nodes 0 marks.old marks.new }
{
    let live = pool.live();
    for done in 0..live {
        let k = live - 1 - done;
        if marks[k as usize] {
            mark_children(pool.get(NodeId(k)).op, marks);
        }
    }
}

/// Marks the nodes that a module reaches: its drivers and all that they are made of. It takes no memory.
pub fn reach(m: &Module, pool: &Pool, marks: &mut [bool])
    requires fits { DriversFit m.now pool.now }
    requires many { length marks.old ≡ length pool.now.nodes }
    ensures { AreMarks m.now pool.now.nodes marks.new }
{
    marks.fill(false);
    mark_wires(m.wires(), marks);
    mark_regs(m.regs(), marks);
    mark_arrays(m.arrays(), marks);
    mark_outs(m.outs(), marks);
    mark_parts(pool, marks);
}
