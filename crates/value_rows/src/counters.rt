ghost use Rattle.std.specs.Prelude.{◌≡◌, ◌+◌, IfOk, vec_len};
ghost use Rattle.verilog_flat.specs.Flat.{IsFit};

use std::alloc::{AllocError, Global};
use verilog_flat::{ArrayWrite, Build, FlatSim, Node};

/// Appends the node of this number to those of the counter.
fn put(build: &mut Build, at: u32, node: Node) -> Result<(), AllocError>
    requires regs { build.old.regs ≡ 1 }
    requires cells { build.old.cells ≡ 4 }
    requires ins { build.old.ins ≡ 2 }
    requires at { vec_len build.old.nodes ≡ at }
    requires fits { IsFit 1 4 2 at node }
    ensures regs { build.new.regs ≡ 1 }
    ensures cells { build.new.cells ≡ 4 }
    ensures ins { build.new.ins ≡ 2 }
    ensures at { IfOk result (λ _. vec_len build.new.nodes ≡ at + 1) }
{
    build.push(node)?;
    Ok(())
}

/// The nodes of a counter of 4 bits with a reset to 13, and of an array of 4 cells.
///
/// Node 2 is the counter, node 6 its next value, node 7 the number of the cell that is read and written, node 8 that
/// cell, and node 9 the join of the counter and the cell.
fn nodes(alloc: Global) -> Result<Build, AllocError>
    ensures { IfOk result (λ build. (build.regs ≡ 1) × (build.cells ≡ 4) × (vec_len build.nodes ≡ 10)) }
{
    let mut build = Build::new(alloc, 1, 4, 2);
    put(&mut build, 0, Node::Input { port: 0 })?;
    put(&mut build, 1, Node::Input { port: 1 })?;
    put(&mut build, 2, Node::Reg { reg: 0 })?;
    put(&mut build, 3, Node::Literal { value: 1 })?;
    let sum = Node::Plus {
        a: 2,
        b: 3,
        mask: 15,
    };
    put(&mut build, 4, sum)?;
    put(&mut build, 5, Node::Literal { value: 13 })?;
    let next = Node::Choice {
        test: 0,
        first: 5,
        other: 4,
    };
    put(&mut build, 6, next)?;
    let index = Node::Slice {
        of: 2,
        low: 1,
        mask: 3,
    };
    put(&mut build, 7, index)?;
    let cell = Node::Cell {
        index: 7,
        base: 0,
        size: 4,
    };
    put(&mut build, 8, cell)?;
    let both = Node::Join {
        high: 2,
        low: 8,
        shift: 4,
    };
    put(&mut build, 9, both)?;
    Ok(build)
}

/// The circuit of these nodes, in which the array takes the counter's old value.
///
/// Ports: the reset, and whether the array is written. Outputs: the counter, the cell that is written, and the join of
/// both.
fn counter(alloc: Global) -> Result<FlatSim, AllocError> {
    let build = nodes(alloc)?;
    let write = ArrayWrite {
        enable: 1,
        index: 7,
        data: 2,
        base: 0,
        size: 4,
    };
    let next = vec![in alloc; 6]?;
    let writes = vec![in alloc; write]?;
    let outs = vec![in alloc; 2, 8, 9]?;
    FlatSim::new(alloc, build, next, writes, outs)
}

/// Ports and outputs of cycles.
const CYCLES: &[(&[u64], &[u64])] = &[
    // Cell 3 before the edge.
    (&[1, 1], &[6, 9, 6 * 16 + 9]),
    // The reset, and cell 2, which is 0.
    (&[0, 0], &[13, 0, 13 * 16]),
    // Cell 3 was written.
    (&[0, 0], &[14, 6, 14 * 16 + 6]),
    (&[0, 0], &[15, 6, 15 * 16 + 6]),
    // The carry is lost.
    (&[0, 0], &[0, 0, 0]),
];

/// Whether the counter counts from 6 on, with 9 in cell 3, as it is to.
fn counts(mut sim: FlatSim, mut outs: Vec<u64>) -> bool {
    if sim.regs.len() != 1 || sim.cells.len() != 4 {
        return false;
    }
    sim.poke_reg(0, 6);
    sim.poke_cell(3, 9);
    for (ins, wanted) in CYCLES {
        if ins.len() != sim.ins || outs.len() != sim.outs.len() {
            return false;
        }
        sim.step(*ins, &mut outs);
        if outs.as_slice() != *wanted {
            return false;
        }
    }
    true
}

/// Whether a circuit counts and writes at the edge.
pub fn counts_are_right(alloc: Global) -> Result<bool, AllocError> {
    let outs = vec![in alloc; 0u64, 0, 0]?;
    Ok(counts(counter(alloc)?, outs))
}
