ghost use Rattle.std.specs.Prelude.{◌≡◌, ℕ, ◌+◌, ◌<◌, ◌≤◌, false, length, None, Some, true};
ghost use Rattle.core_ports.specs.Ports.{is_input, width_of};
ghost use Rattle.hw_pool.specs.Nodes.{PoolValue};
ghost use Rattle.hw_expr.specs.declared.net.Net.{Net};
ghost use Rattle.hw_expr.specs.Nets.{InScope};
ghost use Rattle.hw_module.specs.declared.rows.Owner.TheVariants.{Entry};
ghost use Rattle.hw_module.specs.Checked.{DriversFit};
ghost use Rattle.hw_module.specs.Ports.{port_at};
ghost use Rattle.hw_module.specs.Rights.{Makes, MayDrive, Rights};
ghost use Rattle.hw_module.specs.Rows.{array_at, out_at, reg_at, wire_at};
ghost use Rattle.hw_module.specs.Scope.{scope_of};

use crate::Builder;
use hw_expr::Net;
use hw_pool::Pool;

impl Builder {
    /// Drives a forward wire that has no driver.
    pub fn drive(&mut self, pool: &Pool, wire: u32, net: Net)
        requires room { 1 ≤ self.old.design.room }
        requires there { wire < length self.old.design.wires }
        requires free { (wire_at self.old.design.wires wire).driver ≡ None }
        requires scope { InScope (scope_of self.old.design) pool.now net }
        requires width { net.width ≡ (wire_at self.old.design.wires wire).width }
        requires below { net.level < (wire_at self.old.design.wires wire).level }
        ensures driven { wire_at self.new.design.wires wire ≡ record (wire_at self.old.design.wires wire) { driver = Some net } }
        ensures others { (k : ℕ) → (k ≡ wire → ⊥) → wire_at self.new.design.wires k ≡ wire_at self.old.design.wires k }
        ensures count { length self.new.design.wires ≡ length self.old.design.wires }
        ensures regs { self.new.design.regs ≡ self.old.design.regs }
        ensures arrays { self.new.design.arrays ≡ self.old.design.arrays }
        ensures outs { self.new.design.outs ≡ self.old.design.outs }
        ensures room { self.new.design.room + 1 ≡ self.old.design.room }
        ensures entry { self.new.entry ≡ self.old.entry }
        ensures makes { (r : Rights) → MayDrive (Entry self.old.entry) r (wire_at self.old.design.wires wire).owner wire → Makes (Entry self.old.entry) r self.old.design self.new.design 1 }
        ensures kept { (pool : PoolValue) (n : Net) → InScope (scope_of self.old.design) pool n → InScope (scope_of self.new.design) pool n }
        ensures drivers { DriversFit self.old.design pool.now → DriversFit self.new.design pool.now }
    {
        self.module.drive(pool, wire, net);
    }

    /// Gives a register that has none its next value.
    pub fn next(&mut self, pool: &Pool, reg: u32, net: Net)
        requires room { 1 ≤ self.old.design.room }
        requires there { reg < length self.old.design.regs }
        requires free { (reg_at self.old.design.regs reg).next ≡ None }
        requires scope { InScope (scope_of self.old.design) pool.now net }
        requires width { net.width ≡ (reg_at self.old.design.regs reg).width }
        ensures driven { reg_at self.new.design.regs reg ≡ record (reg_at self.old.design.regs reg) { next = Some net } }
        ensures others { (k : ℕ) → (k ≡ reg → ⊥) → reg_at self.new.design.regs k ≡ reg_at self.old.design.regs k }
        ensures count { length self.new.design.regs ≡ length self.old.design.regs }
        ensures wires { self.new.design.wires ≡ self.old.design.wires }
        ensures arrays { self.new.design.arrays ≡ self.old.design.arrays }
        ensures outs { self.new.design.outs ≡ self.old.design.outs }
        ensures room { self.new.design.room + 1 ≡ self.old.design.room }
        ensures entry { self.new.entry ≡ self.old.entry }
        ensures makes { (r : Rights) → (reg_at self.old.design.regs reg).owner ≡ Entry self.old.entry → Makes (Entry self.old.entry) r self.old.design self.new.design 1 }
        ensures kept { (pool : PoolValue) (n : Net) → InScope (scope_of self.old.design) pool n → InScope (scope_of self.new.design) pool n }
        ensures drivers { DriversFit self.old.design pool.now → DriversFit self.new.design pool.now }
    {
        self.module.next(pool, reg, net);
    }

    /// Gives an array that has none its write.
    pub fn write(&mut self, pool: &Pool, array: u32, enable: Net, addr: Net, value: Net)
        requires room { 1 ≤ self.old.design.room }
        requires there { array < length self.old.design.arrays }
        requires free { (array_at self.old.design.arrays array).write ≡ None }
        requires enable { InScope (scope_of self.old.design) pool.now enable }
        requires addr { InScope (scope_of self.old.design) pool.now addr }
        requires value { InScope (scope_of self.old.design) pool.now value }
        requires bit { enable.width ≡ 1 }
        requires bits { addr.width ≡ (array_at self.old.design.arrays array).bits }
        requires width { value.width ≡ (array_at self.old.design.arrays array).width }
        ensures driven { array_at self.new.design.arrays array ≡ record (array_at self.old.design.arrays array) { write = Some (record { enable = enable; addr = addr; value = value }) } }
        ensures others { (k : ℕ) → (k ≡ array → ⊥) → array_at self.new.design.arrays k ≡ array_at self.old.design.arrays k }
        ensures count { length self.new.design.arrays ≡ length self.old.design.arrays }
        ensures wires { self.new.design.wires ≡ self.old.design.wires }
        ensures regs { self.new.design.regs ≡ self.old.design.regs }
        ensures outs { self.new.design.outs ≡ self.old.design.outs }
        ensures room { self.new.design.room + 1 ≡ self.old.design.room }
        ensures entry { self.new.entry ≡ self.old.entry }
        ensures makes { (r : Rights) → (array_at self.old.design.arrays array).owner ≡ Entry self.old.entry → Makes (Entry self.old.entry) r self.old.design self.new.design 1 }
        ensures kept { (pool : PoolValue) (n : Net) → InScope (scope_of self.old.design) pool n → InScope (scope_of self.new.design) pool n }
        ensures drivers { DriversFit self.old.design pool.now → DriversFit self.new.design pool.now }
    {
        self.module.write(pool, array, enable, addr, value);
    }

    /// Drives an output port that has no driver.
    pub fn output(&mut self, pool: &Pool, port: u32, net: Net)
        requires room { 1 ≤ self.old.design.room }
        requires there { port < 30 }
        requires output { is_input (port_at port) ≡ false }
        requires free { out_at self.old.design.outs port ≡ None }
        requires scope { InScope (scope_of self.old.design) pool.now net }
        requires width { net.width ≡ width_of (port_at port) }
        ensures driven { out_at self.new.design.outs port ≡ Some net }
        ensures others { (k : ℕ) → (k ≡ port → ⊥) → out_at self.new.design.outs k ≡ out_at self.old.design.outs k }
        ensures count { length self.new.design.outs ≡ length self.old.design.outs }
        ensures wires { self.new.design.wires ≡ self.old.design.wires }
        ensures regs { self.new.design.regs ≡ self.old.design.regs }
        ensures arrays { self.new.design.arrays ≡ self.old.design.arrays }
        ensures room { self.new.design.room + 1 ≡ self.old.design.room }
        ensures entry { self.new.entry ≡ self.old.entry }
        ensures makes { (r : Rights) → r.outs port ≡ true → Makes (Entry self.old.entry) r self.old.design self.new.design 1 }
        ensures kept { (pool : PoolValue) (n : Net) → InScope (scope_of self.old.design) pool n → InScope (scope_of self.new.design) pool n }
        ensures drivers { DriversFit self.old.design pool.now → DriversFit self.new.design pool.now }
    {
        self.module.output(pool, port, net);
    }
}
