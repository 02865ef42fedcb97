ghost use Rattle.std.specs.Prelude.{◌≡◌, ℕ, ◌^◌, ◌<◌, ◌≤◌, get_or, IfOk, length, map, replicate, set};
ghost use Rattle.hw_module.specs.Rows.{ModuleValue, array_at};
ghost use Rattle.hw_module.specs.Checked.{IsChecked};
ghost use Rattle.hw_module.specs.Cycle.{next_held, out_value};
ghost use Rattle.hw_cycle.specs.State.{IsCycle, IsFor, SameShape, cells_at, held_in, held_of};
ghost use Rattle.hw_cycle.specs.Inputs.{AreOutputs, AreWithin, ins_of};
ghost use Rattle.hw_cycle.specs.Levels.{AreHeld, AreShaped};
ghost use Rattle.hw_cycle.specs.Commit.{AreSettled};

use crate::array::Array;
use crate::commit::{put_outs, step_cells, step_regs};
use crate::settle::{Order, find_tops, settle};
use crate::value::Taken;
use hw_module::{ArrayRow, Module, RegRow};
use hw_pool::Pool;
use hw_reach::reach;
use std::alloc::{AllocError, Global};
use std::marker::Model;

/// What the registers and arrays of a module hold, with room for the values of one cycle.
#[derive(Drop)]
pub struct Cycle {
    reg_widths: Vec<u32>,
    array_widths: Vec<u32>,
    array_bits: Vec<u32>,
    regs: Vec<u64>,
    cells: Vec<Array>,
    wires: Vec<u64>,
    values: Vec<u64>,
    tops: Vec<u32>,
    marks: Vec<bool>,
}

impl Model for Cycle {
    ghost use Rattle.std.specs.Prelude.{◌≡◌, length};
    ghost use Rattle.hw_cycle.specs.State.{CycleValue, IsCycle};

    ghost Value = { CycleValue };

    ghost view = { λ c. record { wires = length c.wires.items; reg_widths = c.reg_widths.items; array_widths = c.array_widths.items; array_bits = c.array_bits.items; nodes = length c.values.items; regs = c.regs.items; cells = c.cells.items } };

    ghost invariant = { λ c. IsCycle (record { wires = length c.wires.items; reg_widths = c.reg_widths.items; array_widths = c.array_widths.items; array_bits = c.array_bits.items; nodes = length c.values.items; regs = c.regs.items; cells = c.cells.items })
        × (length c.tops.items ≡ length c.values.items) × (length c.marks.items ≡ length c.values.items) };
}

/// Arrays whose cells hold 0.
fn zeros(alloc: Global, rows: &[ArrayRow]) -> Result<Vec<Array>, AllocError>
    requires bits { (a : ℕ) → a < length rows.now → (array_at rows.now a).bits ≤ 16 }
    ensures many { IfOk result (λ v. length v.items ≡ length rows.now) }
    ensures zero { IfOk result (λ v. (a : ℕ) → a < length rows.now → cells_at v.items a ≡ replicate (2 ^ (array_at rows.now a).bits) 0) }
{
    let mut arrays = Vec::with_capacity(alloc, rows.len())?;
    for a in 0..rows.len() {
        let cells = Array::zeros(alloc, 1 << rows[a].bits)?;
        arrays.push(cells)?;
    }
    Ok(arrays)
}

/// Gives each driver its value in the cycle.
fn evaluate(
    m: &Module,
    pool: &Pool,
    marks: &mut [bool],
    tops: &mut [u32],
    taken: &Taken<'_>,
    wires: &mut [u64],
    values: &mut [u64],
)
    requires checked { IsChecked m.now pool.now }
    requires marks { length pool.now.nodes ≤ length marks.old }
    requires tops { length pool.now.nodes ≤ length tops.old }
    requires room { length pool.now.nodes ≤ length values.old }
    requires ins { length taken.now.ins.now ≡ 13 }
    requires shaped { AreShaped m.now (length wires.old) (length taken.now.regs.now) taken.now.cells.now }
    requires held { AreHeld m.now (held_in taken.now.regs.now taken.now.cells.now) (ins_of taken.now.ins.now) }
    ensures { AreSettled m.now pool.now.nodes (held_in taken.now.regs.now taken.now.cells.now) (ins_of taken.now.ins.now) values.new }
{
    let live = pool.live() as usize;
    let marks = &mut marks[..live];
    reach(m, pool, marks);
    find_tops(m, pool, marks, tops);
    let order = Order { marks, tops };
    settle(m, pool, &order, taken, wires, values);
}

/// Gives the outputs, and then the registers and arrays take their next values.
fn commit(
    m: &Module,
    pool: &Pool,
    ins: &[u64],
    values: &[u64],
    regs: &mut [u64],
    cells: &mut [Array],
    outs: &mut [u64],
)
    requires checked { IsChecked m.now pool.now }
    requires room { length pool.now.nodes ≤ length values.now }
    requires ins { length ins.now ≡ 13 }
    requires outs { length outs.old ≡ 17 }
    requires shaped { AreShaped m.now (length m.now.wires) (length regs.old) cells.old }
    requires held { AreHeld m.now (held_in regs.old cells.old) (ins_of ins.now) }
    requires settled { AreSettled m.now pool.now.nodes (held_in regs.old cells.old) (ins_of ins.now) values.now }
    ensures outs { AreOutputs (out_value m.now pool.now.nodes (held_in regs.old cells.old) (ins_of ins.now)) outs.new }
    ensures regs { (r : ℕ) → r < length m.now.regs → get_or regs.new r 0 ≡ (next_held m.now pool.now.nodes (held_in regs.old cells.old) (ins_of ins.now)).regs r }
    ensures cells { (a : ℕ) → a < length m.now.arrays → cells_at cells.new a ≡ (next_held m.now pool.now.nodes (held_in regs.old cells.old) (ins_of ins.now)).cells a }
    ensures held { AreHeld m.now (held_in regs.new cells.new) (ins_of ins.now) }
    ensures counts { (a : ℕ) → a < length m.now.arrays → length (cells_at cells.new a) ≡ length (cells_at cells.old a) }
{
    let _ = pool.live();
    put_outs(m, values, outs);
    step_regs(m, ins[1], values, regs);
    step_cells(m, values, cells);
}

/// The widths of registers.
fn widths_of_regs(alloc: Global, rows: &[RegRow]) -> Result<Vec<u32>, AllocError>
    ensures { IfOk result (λ v. v.items ≡ map (λ row. row.width) rows.now) }
{
    rows.iter().map(|row| row.width).collect(alloc)
}

/// The widths of arrays.
fn widths_of_arrays(alloc: Global, rows: &[ArrayRow]) -> Result<Vec<u32>, AllocError>
    ensures { IfOk result (λ v. v.items ≡ map (λ row. row.width) rows.now) }
{
    rows.iter().map(|row| row.width).collect(alloc)
}

/// How many bits the numbers of the arrays' cells have.
fn bits_of_arrays(alloc: Global, rows: &[ArrayRow]) -> Result<Vec<u32>, AllocError>
    ensures { IfOk result (λ v. v.items ≡ map (λ row. row.bits) rows.now) }
{
    rows.iter().map(|row| row.bits).collect(alloc)
}

impl Cycle {
    /// The registers and arrays of a module, which hold 0. All memory is taken here: a pool with as many nodes
    /// as this one can be stepped.
    ///
    /// # Errors
    /// `AllocError` where memory was refused.
    pub fn new(alloc: Global, m: &Module, pool: &Pool) -> Result<Cycle, AllocError>
        ensures shape { IfOk result (λ c. IsFor c m.now) }
        ensures nodes { IfOk result (λ c. c.nodes ≡ length pool.now.nodes) }
        ensures regs { IfOk result (λ c. c.regs ≡ replicate (length m.now.regs) 0) }
        ensures cells { IfOk result (λ c. (a : ℕ) → a < length m.now.arrays → cells_at c.cells a ≡ replicate (2 ^ (array_at m.now.arrays a).bits) 0) }
    {
        let live = pool.live() as usize;
        let reg_widths = widths_of_regs(alloc, m.regs().as_slice())?;
        let array_widths = widths_of_arrays(alloc, m.arrays().as_slice())?;
        let array_bits = bits_of_arrays(alloc, m.arrays().as_slice())?;
        let regs = Vec::from_elem(alloc, 0u64, m.regs().len())?;
        let cells = zeros(alloc, m.arrays().as_slice())?;
        let wires = Vec::from_elem(alloc, 0u64, m.wires().len())?;
        let values = Vec::from_elem(alloc, 0u64, live)?;
        let tops = Vec::from_elem(alloc, 0u32, live)?;
        let marks = Vec::from_elem(alloc, false, live)?;
        Ok(Cycle {
            reg_widths,
            array_widths,
            array_bits,
            regs,
            cells,
            wires,
            values,
            tops,
            marks,
        })
    }

    /// What a register holds.
    pub fn reg(&self, reg: u32) -> u64
        requires { reg < length self.now.regs }
        ensures value { result ≡ get_or self.now.regs reg 0 }
        ensures ranges { IsCycle self.now }
    {
        self.regs[reg as usize]
    }

    /// What a cell of an array holds.
    pub fn cell(&self, array: u32, cell: u32) -> u64
        requires array { array < length self.now.cells }
        requires cell { cell < length (cells_at self.now.cells array) }
        ensures value { result ≡ get_or (cells_at self.now.cells array) cell 0 }
        ensures ranges { IsCycle self.now }
    {
        self.cells[array as usize].get(u64::from(cell))
    }

    /// Sets what a register holds.
    pub fn poke_reg(&mut self, reg: u32, value: u64)
        requires there { reg < length self.old.regs }
        requires fits { value < 2 ^ get_or self.old.reg_widths reg 0 }
        ensures set { self.new ≡ record self.old { regs = set self.old.regs reg value } }
        ensures shape { (m : ModuleValue) → IsFor self.old m → IsFor self.new m }
    {
        self.regs[reg as usize] = value;
    }

    /// Sets what a cell of an array holds.
    pub fn poke_cell(&mut self, array: u32, cell: u32, value: u64)
        requires array { array < length self.old.cells }
        requires cell { cell < length (cells_at self.old.cells array) }
        requires fits { value < 2 ^ get_or self.old.array_widths array 0 }
        ensures set { self.new ≡ record self.old { cells = set self.old.cells array (set (cells_at self.old.cells array) cell value) } }
        ensures shape { (m : ModuleValue) → IsFor self.old m → IsFor self.new m }
    {
        let one = &mut self.cells[array as usize];
        one.put(u64::from(cell), value);
    }

    /// One cycle: gives the outputs for the inputs, and then the registers and arrays take their next values.
    /// Inputs and outputs are in the order of the ports. It takes no memory.
    pub fn step(&mut self, m: &Module, pool: &Pool, ins: &Vec<u64>, outs: &mut Vec<u64>)
        requires checked { IsChecked m.now pool.now }
        requires shape { IsFor self.old m.now }
        requires nodes { length pool.now.nodes ≤ self.old.nodes }
        requires ins { length ins.now.items ≡ 13 }
        requires within { AreWithin ins.now.items }
        requires outs { length outs.old.items ≡ 17 }
        ensures many { length outs.new.items ≡ 17 }
        ensures outs { AreOutputs (out_value m.now pool.now.nodes (held_of self.old) (ins_of ins.now.items)) outs.new.items }
        ensures regs { (r : ℕ) → r < length m.now.regs → get_or self.new.regs r 0 ≡ (next_held m.now pool.now.nodes (held_of self.old) (ins_of ins.now.items)).regs r }
        ensures cells { (a : ℕ) → a < length m.now.arrays → cells_at self.new.cells a ≡ (next_held m.now pool.now.nodes (held_of self.old) (ins_of ins.now.items)).cells a }
        ensures same { SameShape self.old self.new }
        ensures shape { IsFor self.new m.now }
    {
        let taken = Taken {
            ins: ins.as_slice(),
            regs: self.regs.as_slice(),
            cells: self.cells.as_slice(),
        };
        evaluate(
            m,
            pool,
            self.marks.as_mut_slice(),
            self.tops.as_mut_slice(),
            &taken,
            self.wires.as_mut_slice(),
            self.values.as_mut_slice(),
        );
        commit(
            m,
            pool,
            ins.as_slice(),
            self.values.as_slice(),
            self.regs.as_mut_slice(),
            self.cells.as_mut_slice(),
            outs.as_mut_slice(),
        );
    }
}
