ghost use Rattle.std.specs.Prelude.{◌≡◌, length, vec_len};

use crate::arrays::ArrayPlace;
use verilog_flat::FlatSim;

/// A simulator of a module. Ports, registers and arrays have numbers, in the order of their declarations.
#[derive(Drop)]
pub struct TreeSim {
    pub flat: FlatSim,
    /// Where the cells of each array lie.
    pub arrays: Vec<ArrayPlace>,
}

impl TreeSim {
    ghost use Rattle.std.specs.Prelude.{◌<◌, ℕ, List, map, set};
    ghost use Rattle.verilog_flat.specs.Cycle.{IsSameCircuit};
    ghost use Rattle.verilog_sim.specs.Cells.{IsCell, cell_at};
    ghost use Rattle.verilog_mean.specs.Plain.{Plain};
    ghost use Rattle.verilog_mean.specs.Cycle.{State, next, value};
    ghost use Rattle.verilog_mean.specs.Run.{PortsFit};
    ghost use Rattle.verilog_sim.specs.Simulates.{AllFit, Layout, Shows, Simulates};

    /// One cycle: answers the outputs for the inputs, and then passes the edge of the clock.
    pub fn step(&mut self, ins: &[u64], outs: &mut Vec<u64>)
        requires ins { length ins.now ≡ self.old.flat.ins }
        requires outs { vec_len outs.old ≡ vec_len self.old.flat.outs }
        ensures outs { (m : Plain) (layout : Layout) (s : State) (inputs : List ℕ → ℕ) → Simulates m layout self.old.flat
            → Shows m layout s self.old.flat.regs.items self.old.flat.cells.items → PortsFit m.ports inputs → map inputs layout.ins ≡ ins.now
            → outs.new.items ≡ map (value m s inputs) layout.outs }
        ensures fit { (m : Plain) (layout : Layout) (s : State) (inputs : List ℕ → ℕ) → Simulates m layout self.old.flat
            → Shows m layout s self.old.flat.regs.items self.old.flat.cells.items → PortsFit m.ports inputs → map inputs layout.ins ≡ ins.now
            → AllFit m (value m s inputs) layout.outs }
        ensures held { (m : Plain) (layout : Layout) (s : State) (inputs : List ℕ → ℕ) → Simulates m layout self.old.flat
            → Shows m layout s self.old.flat.regs.items self.old.flat.cells.items → PortsFit m.ports inputs → map inputs layout.ins ≡ ins.now
            → Shows m layout (next m s inputs) self.new.flat.regs.items self.new.flat.cells.items }
        ensures room { vec_len outs.new ≡ vec_len outs.old }
        ensures same { (self.new.flat.ins ≡ self.old.flat.ins) × (vec_len self.new.flat.outs ≡ vec_len self.old.flat.outs) }
        ensures arrays { self.new.arrays ≡ self.old.arrays }
        ensures simulates { (m : Plain) (layout : Layout) → Simulates m layout self.old.flat → Simulates m layout self.new.flat }
    {
        self.flat.step(ins, outs);
    }

    /// Sets what a register holds, by its number, and nothing else. The value fits in the register's width.
    pub fn poke_reg(&mut self, reg: u32, value: u64)
        requires { reg < vec_len self.old.flat.regs }
        ensures regs { self.new.flat.regs.items ≡ set self.old.flat.regs.items reg value }
        ensures cells { self.new.flat.cells.items ≡ self.old.flat.cells.items }
        ensures same { IsSameCircuit self.new.flat self.old.flat }
        ensures arrays { self.new.arrays ≡ self.old.arrays }
    {
        self.flat.poke_reg(reg as usize, value);
    }

    /// Sets what a cell of an array holds, both by their numbers, and nothing else. The value fits in the array's
    /// width.
    pub fn poke_cell(&mut self, array: u32, cell: u32, value: u64)
        requires { IsCell self.old array cell }
        ensures regs { self.new.flat.regs.items ≡ self.old.flat.regs.items }
        ensures cells { self.new.flat.cells.items ≡ set self.old.flat.cells.items (cell_at self.old array cell) value }
        ensures same { IsSameCircuit self.new.flat self.old.flat }
        ensures arrays { self.new.arrays ≡ self.old.arrays }
    {
        let place = self.arrays[array as usize];
        self.flat
            .poke_cell(place.base as usize + cell as usize, value);
    }
}
