ghost use Rattle.std.specs.Prelude.{◌≡◌, ℕ, ◌+◌, ◌<◌, ◌≤◌, ◌^◌, length, MatchOption, None};
ghost use Rattle.hw_pool.specs.Nodes.{IsWidth, PoolValue};
ghost use Rattle.hw_expr.specs.declared.net.Net.{Net};
ghost use Rattle.hw_expr.specs.Nets.{InScope};
ghost use Rattle.hw_module.specs.declared.rows.Owner.TheVariants.{Entry};
ghost use Rattle.hw_module.specs.Checked.{DriversFit};
ghost use Rattle.hw_module.specs.Rights.{Makes, Rights};
ghost use Rattle.hw_module.specs.Rows.{IsModule, IsReset, array_at, reg_at, wire_at};
ghost use Rattle.hw_module.specs.Scope.{scope_of};

use hw_expr::Net;
use hw_module::{ArrayRow, Module, Owner, RegRow, WireRow};
use std::marker::Model;

/// A module that one entry at a time builds in: what is made is the entry's.
#[derive(Debug, Drop)]
pub struct Builder {
    pub(crate) module: Module,
    pub(crate) entry: u32,
}

impl Model for Builder {
    ghost use Rattle.plug_build.specs.World.{BuilderValue};

    ghost Value = { BuilderValue };

    ghost view = { λ b. record { design = b.module; entry = b.entry } };
}

impl Builder {
    /// A builder of the module, for this entry. It takes no memory.
    pub fn new(m: Module, entry: u32) -> Builder
        ensures { result ≡ record { design = m; entry = entry } }
    {
        Builder { module: m, entry }
    }

    /// From now on this entry builds. It takes no memory.
    pub fn set_entry(&mut self, entry: u32)
        ensures { self.new ≡ record self.old { entry = entry } }
    {
        self.entry = entry;
    }

    /// The entry that builds. It takes no memory.
    pub fn entry(&self) -> u32
        ensures { result ≡ self.now.entry }
    {
        self.entry
    }

    /// The module as it was built. It takes no memory.
    pub fn into_module(self) -> Module
        ensures { result ≡ self.design }
    {
        let Builder {
            module,
            entry: _entry,
        } = self;
        module
    }

    /// How many more things and drivers can be taken. It takes no memory.
    pub fn room(&self) -> u32
        ensures { result ≡ self.now.design.room }
    {
        self.module.room()
    }

    /// The forward wires of the module by their numbers. It takes no memory.
    pub fn wires(&self) -> &Vec<WireRow>
        ensures rows { result.now.items ≡ self.now.design.wires }
        ensures few { length self.now.design.wires < 2 ^ 32 }
        ensures ranges { IsModule self.now.design }
    {
        self.module.wires()
    }

    /// The registers of the module by their numbers. It takes no memory.
    pub fn regs(&self) -> &Vec<RegRow>
        ensures rows { result.now.items ≡ self.now.design.regs }
        ensures few { length self.now.design.regs < 2 ^ 32 }
        ensures ranges { IsModule self.now.design }
    {
        self.module.regs()
    }

    /// The arrays of the module by their numbers. It takes no memory.
    pub fn arrays(&self) -> &Vec<ArrayRow>
        ensures rows { result.now.items ≡ self.now.design.arrays }
        ensures few { length self.now.design.arrays < 2 ^ 32 }
        ensures ranges { IsModule self.now.design }
    {
        self.module.arrays()
    }

    /// The drivers of the ports by their numbers. An input port has none. It takes no memory.
    pub fn outs(&self) -> &Vec<Option<Net>>
        ensures rows { result.now.items ≡ self.now.design.outs }
        ensures ranges { IsModule self.now.design }
    {
        self.module.outs()
    }

    /// The least number of a forward wire that the entry owns, none exactly where it owns none. It takes no memory.
    pub fn first_wire(&self) -> Option<u32>
        ensures { MatchOption result ((k : ℕ) → k < length self.now.design.wires → (wire_at self.now.design.wires k).owner ≡ Entry self.now.entry → ⊥)
            (λ r. (r < length self.now.design.wires) × ((wire_at self.now.design.wires r).owner ≡ Entry self.now.entry) × ((k : ℕ) → k < r → (wire_at self.now.design.wires k).owner ≡ Entry self.now.entry → ⊥)) }
    {
        let rows = self.module.wires();
        for k in 0..rows.len() {
            let row = rows[k];
            if row.owner == Owner::Entry(self.entry) {
                return Some(k as u32);
            }
        }
        None
    }

    /// The least number of a register that the entry owns, none exactly where it owns none. It takes no memory.
    pub fn first_reg(&self) -> Option<u32>
        ensures { MatchOption result ((k : ℕ) → k < length self.now.design.regs → (reg_at self.now.design.regs k).owner ≡ Entry self.now.entry → ⊥)
            (λ r. (r < length self.now.design.regs) × ((reg_at self.now.design.regs r).owner ≡ Entry self.now.entry) × ((k : ℕ) → k < r → (reg_at self.now.design.regs k).owner ≡ Entry self.now.entry → ⊥)) }
    {
        let rows = self.module.regs();
        for k in 0..rows.len() {
            let row = rows[k];
            if row.owner == Owner::Entry(self.entry) {
                return Some(k as u32);
            }
        }
        None
    }

    /// The least number of an array that the entry owns, none exactly where it owns none. It takes no memory.
    pub fn first_array(&self) -> Option<u32>
        ensures { MatchOption result ((k : ℕ) → k < length self.now.design.arrays → (array_at self.now.design.arrays k).owner ≡ Entry self.now.entry → ⊥)
            (λ r. (r < length self.now.design.arrays) × ((array_at self.now.design.arrays r).owner ≡ Entry self.now.entry) × ((k : ℕ) → k < r → (array_at self.now.design.arrays k).owner ≡ Entry self.now.entry → ⊥)) }
    {
        let rows = self.module.arrays();
        for k in 0..rows.len() {
            let row = rows[k];
            if row.owner == Owner::Entry(self.entry) {
                return Some(k as u32);
            }
        }
        None
    }

    /// Makes a forward wire of the entry, whose driver is to have a level below `level`, and answers its number.
    pub fn wire(&mut self, width: u32, level: u32) -> u32
        requires room { 1 ≤ self.old.design.room }
        requires width { IsWidth width }
        ensures number { result ≡ length self.old.design.wires }
        ensures count { length self.new.design.wires ≡ length self.old.design.wires + 1 }
        ensures made { wire_at self.new.design.wires result ≡ record { owner = Entry self.old.entry; width = width; level = level; driver = None } }
        ensures before { (k : ℕ) → k < length self.old.design.wires → wire_at self.new.design.wires k ≡ wire_at self.old.design.wires k }
        ensures regs { self.new.design.regs ≡ self.old.design.regs }
        ensures arrays { self.new.design.arrays ≡ self.old.design.arrays }
        ensures outs { self.new.design.outs ≡ self.old.design.outs }
        ensures room { self.new.design.room + 1 ≡ self.old.design.room }
        ensures entry { self.new.entry ≡ self.old.entry }
        ensures makes { (r : Rights) → Makes (Entry self.old.entry) r self.old.design self.new.design 1 }
        ensures kept { (pool : PoolValue) (n : Net) → InScope (scope_of self.old.design) pool n → InScope (scope_of self.new.design) pool n }
        ensures drivers { (pool : PoolValue) → DriversFit self.old.design pool → DriversFit self.new.design pool }
    {
        self.module.wire(Owner::Entry(self.entry), width, level)
    }

    /// Makes a register of the entry, and answers its number.
    pub fn reg(&mut self, width: u32, reset: Option<u64>) -> u32
        requires room { 1 ≤ self.old.design.room }
        requires width { IsWidth width }
        requires reset { IsReset width reset }
        ensures number { result ≡ length self.old.design.regs }
        ensures count { length self.new.design.regs ≡ length self.old.design.regs + 1 }
        ensures made { reg_at self.new.design.regs result ≡ record { owner = Entry self.old.entry; width = width; reset = reset; next = None } }
        ensures before { (k : ℕ) → k < length self.old.design.regs → reg_at self.new.design.regs k ≡ reg_at self.old.design.regs k }
        ensures wires { self.new.design.wires ≡ self.old.design.wires }
        ensures arrays { self.new.design.arrays ≡ self.old.design.arrays }
        ensures outs { self.new.design.outs ≡ self.old.design.outs }
        ensures room { self.new.design.room + 1 ≡ self.old.design.room }
        ensures entry { self.new.entry ≡ self.old.entry }
        ensures makes { (r : Rights) → Makes (Entry self.old.entry) r self.old.design self.new.design 1 }
        ensures kept { (pool : PoolValue) (n : Net) → InScope (scope_of self.old.design) pool n → InScope (scope_of self.new.design) pool n }
        ensures drivers { (pool : PoolValue) → DriversFit self.old.design pool → DriversFit self.new.design pool }
    {
        self.module.reg(Owner::Entry(self.entry), width, reset)
    }

    /// Makes an array of the entry, and answers its number.
    pub fn array(&mut self, width: u32, bits: u32) -> u32
        requires room { 1 ≤ self.old.design.room }
        requires width { IsWidth width }
        requires least { 1 ≤ bits }
        requires most { bits ≤ 16 }
        ensures number { result ≡ length self.old.design.arrays }
        ensures count { length self.new.design.arrays ≡ length self.old.design.arrays + 1 }
        ensures made { array_at self.new.design.arrays result ≡ record { owner = Entry self.old.entry; width = width; bits = bits; write = None } }
        ensures before { (k : ℕ) → k < length self.old.design.arrays → array_at self.new.design.arrays k ≡ array_at self.old.design.arrays k }
        ensures wires { self.new.design.wires ≡ self.old.design.wires }
        ensures regs { self.new.design.regs ≡ self.old.design.regs }
        ensures outs { self.new.design.outs ≡ self.old.design.outs }
        ensures room { self.new.design.room + 1 ≡ self.old.design.room }
        ensures entry { self.new.entry ≡ self.old.entry }
        ensures makes { (r : Rights) → Makes (Entry self.old.entry) r self.old.design self.new.design 1 }
        ensures kept { (pool : PoolValue) (n : Net) → InScope (scope_of self.old.design) pool n → InScope (scope_of self.new.design) pool n }
        ensures drivers { (pool : PoolValue) → DriversFit self.old.design pool → DriversFit self.new.design pool }
    {
        self.module.array(Owner::Entry(self.entry), width, bits)
    }
}
