ghost use Rattle.std.specs.Prelude.{◌≡◌, length};
ghost use Rattle.verilog_flat.specs.Flat.{AllBelow, IsWell, picked, values};
ghost use Rattle.verilog_flat.specs.Writes.{AreWrites, write_all};

use crate::node::{Node, value_of};

/// A write to an array at the edge of the clock: `data` goes into the cell `index` where `enable` is 1.
///
/// These three are numbers of nodes. The array has `size` cells and begins at the cell `base`; past its
/// end nothing is written.
#[derive(Clone, Copy, Drop)]
pub struct ArrayWrite {
    pub enable: u32,
    pub index: u32,
    pub data: u32,
    pub base: u32,
    pub size: u32,
}

/// Gives each node its value, in order.
#[tactic(auto, using(crate::proofs::Runs::run_values))]
pub fn settle(nodes: &[Node], regs: &[u64], cells: &[u64], ins: &[u64], vals: &mut [u64])
    requires well { IsWell (length regs.now) (length cells.now) (length ins.now) 0 nodes.now }
    requires room { length vals.old ≡ length nodes.now }
    ensures { vals.new ≡ values regs.now cells.now ins.now nodes.now }
{
    let mut rest = nodes;
    let mut at: usize = 0;
    while let [node, more @ ..] = rest {
        vals[at] = value_of(*node, regs, cells, ins, vals, at);
        at += 1;
        rest = more;
    }
}

/// Puts the value of each of some nodes into its place.
pub fn pick(vals: &[u64], nodes: &[u32], into: &mut [u64])
    requires below { AllBelow (length vals.now) nodes.now }
    requires room { length into.old ≡ length nodes.now }
    ensures { into.new ≡ picked vals.now nodes.now }
{
    let mut rest = nodes;
    let mut at: usize = 0;
    while let [node, more @ ..] = rest {
        into[at] = vals[*node as usize];
        at += 1;
        rest = more;
    }
}

/// Does the writes to the arrays, in order.
pub fn write_cells(vals: &[u64], writes: &[ArrayWrite], cells: &mut [u64])
    requires { AreWrites (length vals.now) (length cells.old) writes.now }
    ensures { cells.new ≡ write_all vals.now writes.now cells.old }
{
    let mut rest = writes;
    while let [write, more @ ..] = rest {
        if vals[write.enable as usize] == 1 {
            let at = vals[write.index as usize];
            if at < u64::from(write.size) {
                cells[write.base as usize + at as usize] = vals[write.data as usize];
            }
        }
        rest = more;
    }
}
