ghost use Rattle.std.specs.Prelude.{◌≡◌, vec_len};
ghost use Rattle.verilog_flat.specs.Flat.{AllBelow, IsWell};
ghost use Rattle.verilog_flat.specs.Writes.{AreWrites};
ghost use Rattle.verilog_flat.specs.Props.{AllBelow-prop, AreWrites-prop, IsWell-prop};

use crate::build::Build;
use crate::node::Node;
use crate::sweep::{ArrayWrite, pick, settle, write_cells};
use std::alloc::{AllocError, Global};

/// A circuit with what its registers and arrays hold.
///
/// The cells of all arrays lie in one list. `next` has the node of each register's next value, `outs`
/// that of each output.
#[derive(Drop)]
pub struct FlatSim {
    pub nodes: Vec<Node>,
    pub regs: Vec<u64>,
    pub cells: Vec<u64>,
    pub next: Vec<u32>,
    pub writes: Vec<ArrayWrite>,
    pub outs: Vec<u32>,
    pub ins: usize,
    vals: Vec<u64>,
    ghost well: { IsWell (vec_len regs) (vec_len cells) ins 0 nodes.items } by { IsWell-prop _ _ _ _ _ },
    ghost room: { vec_len vals ≡ vec_len nodes },
    ghost next_room: { vec_len regs ≡ vec_len next },
    ghost next_below: { AllBelow (vec_len nodes) next.items } by { AllBelow-prop _ _ },
    ghost outs_below: { AllBelow (vec_len nodes) outs.items } by { AllBelow-prop _ _ },
    ghost writes_below: { AreWrites (vec_len nodes) (vec_len cells) writes.items } by { AreWrites-prop _ _ _ },
}

impl FlatSim {
    ghost use Rattle.std.specs.Prelude.{◌<◌, IfOk, length, replicate, set};
    ghost use Rattle.verilog_flat.specs.Cycle.{IsCircuit, IsSameCircuit, next_cells, next_regs, outputs};

    /// A circuit whose registers and cells hold 0.
    pub fn new(
        alloc: Global,
        build: Build,
        next: Vec<u32>,
        writes: Vec<ArrayWrite>,
        outs: Vec<u32>,
    ) -> Result<FlatSim, AllocError>
        requires room { vec_len next ≡ build.regs }
        requires next { AllBelow (vec_len build.nodes) next.items }
        requires outs { AllBelow (vec_len build.nodes) outs.items }
        requires writes { AreWrites (vec_len build.nodes) build.cells writes.items }
        ensures circuit { IfOk result (λ sim. IsCircuit sim build next.items writes.items outs.items) }
        ensures zero { IfOk result (λ sim. (sim.regs.items ≡ replicate build.regs 0) × (sim.cells.items ≡ replicate build.cells 0)) }
    {
        let Build {
            nodes,
            regs,
            cells,
            ins,
        } = build;
        let vals = Vec::from_elem(alloc, 0u64, nodes.len())?;
        let regs = Vec::from_elem(alloc, 0u64, regs)?;
        let cells = Vec::from_elem(alloc, 0u64, cells)?;
        Ok(FlatSim {
            nodes,
            regs,
            cells,
            next,
            writes,
            outs,
            ins,
            vals,
        })
    }

    /// One cycle: answers the outputs for the inputs, and then passes the edge of the clock.
    pub fn step(&mut self, ins: &[u64], outs: &mut Vec<u64>)
        requires ins { length ins.now ≡ self.old.ins }
        requires outs { vec_len outs.old ≡ vec_len self.old.outs }
        ensures outs { outs.new.items ≡ outputs self.old ins.now }
        ensures room { vec_len outs.new ≡ vec_len outs.old }
        ensures regs { self.new.regs.items ≡ next_regs self.old ins.now }
        ensures cells { self.new.cells.items ≡ next_cells self.old ins.now }
        ensures same { IsSameCircuit self.new self.old }
    {
        settle(
            self.nodes.as_slice(),
            self.regs.as_slice(),
            self.cells.as_slice(),
            ins,
            self.vals.as_mut_slice(),
        );
        pick(
            self.vals.as_slice(),
            self.outs.as_slice(),
            outs.as_mut_slice(),
        );
        pick(
            self.vals.as_slice(),
            self.next.as_slice(),
            self.regs.as_mut_slice(),
        );
        write_cells(
            self.vals.as_slice(),
            self.writes.as_slice(),
            self.cells.as_mut_slice(),
        );
    }

    /// Sets what a register holds.
    pub fn poke_reg(&mut self, reg: usize, value: u64)
        requires { reg < vec_len self.old.regs }
        ensures regs { self.new.regs.items ≡ set self.old.regs.items reg value }
        ensures cells { self.new.cells.items ≡ self.old.cells.items }
        ensures same { IsSameCircuit self.new self.old }
    {
        self.regs[reg] = value;
    }

    /// Sets what a cell holds, by its place among the cells of all arrays.
    pub fn poke_cell(&mut self, cell: usize, value: u64)
        requires { cell < vec_len self.old.cells }
        ensures regs { self.new.regs.items ≡ self.old.regs.items }
        ensures cells { self.new.cells.items ≡ set self.old.cells.items cell value }
        ensures same { IsSameCircuit self.new self.old }
    {
        self.cells[cell] = value;
    }
}
