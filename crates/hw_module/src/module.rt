ghost use Rattle.std.specs.Prelude.{◌≡◌, ℕ, ◌+◌, ◌<◌, ◌≤◌, ◌^◌, [], length, IfOk, None, replicate};
ghost use Rattle.hw_pool.specs.Nodes.{IsWidth, PoolValue};
ghost use Rattle.hw_module.specs.Checked.{DriversFit};
ghost use Rattle.hw_module.specs.Rows.{IsModule, IsReset, array_at, reg_at, wire_at};
ghost use Rattle.hw_module.specs.Frame.{Grows};
ghost use Rattle.hw_module.specs.Rights.{Makes, Rights};

use crate::{ArrayRow, Owner, RegRow, WireRow};
use hw_expr::Net;
use std::alloc::{AllocError, Global};
use std::marker::Model;

/// The forward wires, registers, arrays and outputs of a module, with room for more of them and for drivers.
#[derive(Debug, Drop)]
pub struct Module {
    pub(crate) wires: Vec<WireRow>,
    pub(crate) regs: Vec<RegRow>,
    pub(crate) arrays: Vec<ArrayRow>,
    pub(crate) outs: Vec<Option<Net>>,
    pub(crate) room: u32,
}

impl Model for Module {
    ghost use Rattle.std.specs.Prelude.{◌+◌, ◌<◌, ◌≤◌, ◌^◌, length, vec_capacity};
    ghost use Rattle.hw_module.specs.Rows.{IsModule, ModuleValue};

    ghost Value = { ModuleValue };

    ghost view = { λ m. record { wires = m.wires.items; regs = m.regs.items; arrays = m.arrays.items; outs = m.outs.items; room = m.room } };

    ghost invariant = { λ m. IsModule (record { wires = m.wires.items; regs = m.regs.items; arrays = m.arrays.items; outs = m.outs.items; room = m.room })
        × (length m.wires.items + m.room ≤ vec_capacity m.wires) × (length m.wires.items + m.room < 2 ^ 32)
        × (length m.regs.items + m.room ≤ vec_capacity m.regs) × (length m.regs.items + m.room < 2 ^ 32)
        × (length m.arrays.items + m.room ≤ vec_capacity m.arrays) × (length m.arrays.items + m.room < 2 ^ 32) };
}

impl Module {
    /// A module with the ports of a core and nothing else, which can take `n` things and drivers.
    ///
    /// # Errors
    /// `AllocError` where memory was refused.
    #[tactic(auto, using(crate::proofs::Drivers::no_drivers))]
    pub fn with_room(alloc: Global, n: u32) -> Result<Module, AllocError>
        ensures bare { IfOk result (λ m. m ≡ record { wires = []; regs = []; arrays = []; outs = replicate 30 None; room = n }) }
        ensures drivers { IfOk result (λ m. (pool : PoolValue) → DriversFit m pool) }
    {
        let wires = Vec::with_capacity(alloc, n as usize)?;
        let regs = Vec::with_capacity(alloc, n as usize)?;
        let arrays = Vec::with_capacity(alloc, n as usize)?;
        let outs = vec![in alloc; None; 30]?;
        Ok(Module {
            wires,
            regs,
            arrays,
            outs,
            room: n,
        })
    }

    /// The forward wires by their numbers.
    pub fn wires(&self) -> &Vec<WireRow>
        ensures rows { result.now.items ≡ self.now.wires }
        ensures few { length self.now.wires < 2 ^ 32 }
        ensures ranges { IsModule self.now }
    {
        &self.wires
    }

    /// The registers by their numbers.
    pub fn regs(&self) -> &Vec<RegRow>
        ensures rows { result.now.items ≡ self.now.regs }
        ensures few { length self.now.regs < 2 ^ 32 }
        ensures ranges { IsModule self.now }
    {
        &self.regs
    }

    /// The arrays by their numbers.
    pub fn arrays(&self) -> &Vec<ArrayRow>
        ensures rows { result.now.items ≡ self.now.arrays }
        ensures few { length self.now.arrays < 2 ^ 32 }
        ensures ranges { IsModule self.now }
    {
        &self.arrays
    }

    /// The drivers of the ports by their numbers. An input port has none.
    pub fn outs(&self) -> &Vec<Option<Net>>
        ensures rows { result.now.items ≡ self.now.outs }
        ensures ranges { IsModule self.now }
    {
        &self.outs
    }

    /// How many more things and drivers can be taken.
    pub fn room(&self) -> u32
        ensures { result ≡ self.now.room }
    {
        self.room
    }

    /// Makes a forward wire of `width` bits whose driver is to have a level below `level`, and answers its number.
    /// It takes no memory.
    #[tactic(auto, using(crate::proofs::Makes::made_wire, crate::proofs::Drivers::wire_grows))]
    pub fn wire(&mut self, owner: Owner, width: u32, level: u32) -> u32
        requires room { 1 ≤ self.old.room }
        requires width { IsWidth width }
        ensures number { result ≡ length self.old.wires }
        ensures count { length self.new.wires ≡ length self.old.wires + 1 }
        ensures made { wire_at self.new.wires result ≡ record { owner = owner; width = width; level = level; driver = None } }
        ensures before { (k : ℕ) → k < length self.old.wires → wire_at self.new.wires k ≡ wire_at self.old.wires k }
        ensures regs { self.new.regs ≡ self.old.regs }
        ensures arrays { self.new.arrays ≡ self.old.arrays }
        ensures outs { self.new.outs ≡ self.old.outs }
        ensures room { self.new.room + 1 ≡ self.old.room }
        ensures grows { Grows self.old self.new 1 }
        ensures makes { (r : Rights) → Makes owner r self.old self.new 1 }
        ensures drivers { (pool : PoolValue) → DriversFit self.old pool → DriversFit self.new pool }
    {
        let number = self.wires.len() as u32;
        self.room -= 1;
        let _ = self.wires.push(WireRow {
            owner,
            width,
            level,
            driver: None,
        });
        number
    }

    /// Makes a register of `width` bits, which takes the value `reset` in a reset if there is one, and answers
    /// its number. It takes no memory.
    #[tactic(auto, using(crate::proofs::Makes::made_reg, crate::proofs::Drivers::reg_grows))]
    pub fn reg(&mut self, owner: Owner, width: u32, reset: Option<u64>) -> u32
        requires room { 1 ≤ self.old.room }
        requires width { IsWidth width }
        requires reset { IsReset width reset }
        ensures number { result ≡ length self.old.regs }
        ensures count { length self.new.regs ≡ length self.old.regs + 1 }
        ensures made { reg_at self.new.regs result ≡ record { owner = owner; width = width; reset = reset; next = None } }
        ensures before { (k : ℕ) → k < length self.old.regs → reg_at self.new.regs k ≡ reg_at self.old.regs k }
        ensures wires { self.new.wires ≡ self.old.wires }
        ensures arrays { self.new.arrays ≡ self.old.arrays }
        ensures outs { self.new.outs ≡ self.old.outs }
        ensures room { self.new.room + 1 ≡ self.old.room }
        ensures grows { Grows self.old self.new 1 }
        ensures makes { (r : Rights) → Makes owner r self.old self.new 1 }
        ensures drivers { (pool : PoolValue) → DriversFit self.old pool → DriversFit self.new pool }
    {
        let number = self.regs.len() as u32;
        self.room -= 1;
        let _ = self.regs.push(RegRow {
            owner,
            width,
            reset,
            next: None,
        });
        number
    }

    /// Makes an array of 2 ^ `bits` cells of `width` bits, and answers its number. It takes no memory.
    #[tactic(auto, using(crate::proofs::Makes::made_array, crate::proofs::Drivers::array_grows))]
    pub fn array(&mut self, owner: Owner, width: u32, bits: u32) -> u32
        requires room { 1 ≤ self.old.room }
        requires width { IsWidth width }
        requires least { 1 ≤ bits }
        requires most { bits ≤ 16 }
        ensures number { result ≡ length self.old.arrays }
        ensures count { length self.new.arrays ≡ length self.old.arrays + 1 }
        ensures made { array_at self.new.arrays result ≡ record { owner = owner; width = width; bits = bits; write = None } }
        ensures before { (k : ℕ) → k < length self.old.arrays → array_at self.new.arrays k ≡ array_at self.old.arrays k }
        ensures wires { self.new.wires ≡ self.old.wires }
        ensures regs { self.new.regs ≡ self.old.regs }
        ensures outs { self.new.outs ≡ self.old.outs }
        ensures room { self.new.room + 1 ≡ self.old.room }
        ensures grows { Grows self.old self.new 1 }
        ensures makes { (r : Rights) → Makes owner r self.old self.new 1 }
        ensures drivers { (pool : PoolValue) → DriversFit self.old pool → DriversFit self.new pool }
    {
        let number = self.arrays.len() as u32;
        self.room -= 1;
        let _ = self.arrays.push(ArrayRow {
            owner,
            width,
            bits,
            write: None,
        });
        number
    }
}
