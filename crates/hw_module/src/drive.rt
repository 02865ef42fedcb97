ghost use Rattle.std.specs.Prelude.{◌≡◌, ℕ, ◌+◌, ◌<◌, ◌≤◌, false, length, None, Some, true};
ghost use Rattle.core_ports.specs.Ports.{is_input, width_of};
ghost use Rattle.hw_module.specs.declared.rows.Owner.{Owner};
ghost use Rattle.hw_module.specs.Checked.{DriversFit};
ghost use Rattle.hw_module.specs.Ports.{port_at};
ghost use Rattle.hw_module.specs.Rows.{array_at, out_at, reg_at, wire_at};
ghost use Rattle.hw_module.specs.Fits.{FitsIn};
ghost use Rattle.hw_module.specs.Frame.{Grows};
ghost use Rattle.hw_module.specs.Rights.{Makes, MayDrive, Rights};

use crate::{ArrayWrite, Module};
use hw_expr::Net;
use hw_pool::Pool;

impl Module {
    /// Drives a forward wire that has no driver. The net's level is below the wire's. It takes no memory.
    #[tactic(auto, using(crate::proofs::Makes::set_wire, crate::proofs::Drivers::drive_grows))]
    pub fn drive(&mut self, pool: &Pool, wire: u32, net: Net)
        requires room { 1 ≤ self.old.room }
        requires there { wire < length self.old.wires }
        requires free { (wire_at self.old.wires wire).driver ≡ None }
        requires fits { FitsIn self.old pool.now net }
        requires width { net.width ≡ (wire_at self.old.wires wire).width }
        requires below { net.level < (wire_at self.old.wires wire).level }
        ensures driven { wire_at self.new.wires wire ≡ record (wire_at self.old.wires wire) { driver = Some net } }
        ensures others { (k : ℕ) → (k ≡ wire → ⊥) → wire_at self.new.wires k ≡ wire_at self.old.wires k }
        ensures count { length self.new.wires ≡ length self.old.wires }
        ensures regs { self.new.regs ≡ self.old.regs }
        ensures arrays { self.new.arrays ≡ self.old.arrays }
        ensures outs { self.new.outs ≡ self.old.outs }
        ensures room { self.new.room + 1 ≡ self.old.room }
        ensures grows { Grows self.old self.new 1 }
        ensures makes { (by : Owner) (r : Rights) → MayDrive by r (wire_at self.old.wires wire).owner wire → Makes by r self.old self.new 1 }
        ensures drivers { DriversFit self.old pool.now → DriversFit self.new pool.now }
    {
        let _ = pool;
        self.room -= 1;
        self.wires[wire as usize].driver = Some(net);
    }

    /// Gives a register that has none its next value. It takes no memory.
    #[tactic(auto, using(crate::proofs::Makes::set_reg, crate::proofs::Drivers::next_grows))]
    pub fn next(&mut self, pool: &Pool, reg: u32, net: Net)
        requires room { 1 ≤ self.old.room }
        requires there { reg < length self.old.regs }
        requires free { (reg_at self.old.regs reg).next ≡ None }
        requires fits { FitsIn self.old pool.now net }
        requires width { net.width ≡ (reg_at self.old.regs reg).width }
        ensures driven { reg_at self.new.regs reg ≡ record (reg_at self.old.regs reg) { next = Some net } }
        ensures others { (k : ℕ) → (k ≡ reg → ⊥) → reg_at self.new.regs k ≡ reg_at self.old.regs k }
        ensures count { length self.new.regs ≡ length self.old.regs }
        ensures wires { self.new.wires ≡ self.old.wires }
        ensures arrays { self.new.arrays ≡ self.old.arrays }
        ensures outs { self.new.outs ≡ self.old.outs }
        ensures room { self.new.room + 1 ≡ self.old.room }
        ensures grows { Grows self.old self.new 1 }
        ensures makes { (by : Owner) (r : Rights) → (reg_at self.old.regs reg).owner ≡ by → Makes by r self.old self.new 1 }
        ensures drivers { DriversFit self.old pool.now → DriversFit self.new pool.now }
    {
        let _ = pool;
        self.room -= 1;
        self.regs[reg as usize].next = Some(net);
    }

    /// Gives an array that has none its write: of `value` to the cell that `addr` names, where `enable` is 1. It
    /// takes no memory.
    #[tactic(auto, using(crate::proofs::Makes::set_array, crate::proofs::Drivers::write_grows))]
    pub fn write(&mut self, pool: &Pool, array: u32, enable: Net, addr: Net, value: Net)
        requires room { 1 ≤ self.old.room }
        requires there { array < length self.old.arrays }
        requires free { (array_at self.old.arrays array).write ≡ None }
        requires enable { FitsIn self.old pool.now enable }
        requires addr { FitsIn self.old pool.now addr }
        requires value { FitsIn self.old pool.now value }
        requires bit { enable.width ≡ 1 }
        requires bits { addr.width ≡ (array_at self.old.arrays array).bits }
        requires width { value.width ≡ (array_at self.old.arrays array).width }
        ensures driven { array_at self.new.arrays array ≡ record (array_at self.old.arrays array) { write = Some (record { enable = enable; addr = addr; value = value }) } }
        ensures others { (k : ℕ) → (k ≡ array → ⊥) → array_at self.new.arrays k ≡ array_at self.old.arrays k }
        ensures count { length self.new.arrays ≡ length self.old.arrays }
        ensures wires { self.new.wires ≡ self.old.wires }
        ensures regs { self.new.regs ≡ self.old.regs }
        ensures outs { self.new.outs ≡ self.old.outs }
        ensures room { self.new.room + 1 ≡ self.old.room }
        ensures grows { Grows self.old self.new 1 }
        ensures makes { (by : Owner) (r : Rights) → (array_at self.old.arrays array).owner ≡ by → Makes by r self.old self.new 1 }
        ensures drivers { DriversFit self.old pool.now → DriversFit self.new pool.now }
    {
        let _ = pool;
        self.room -= 1;
        self.arrays[array as usize].write = Some(ArrayWrite {
            enable,
            addr,
            value,
        });
    }

    /// Drives an output port that has no driver. It takes no memory.
    #[tactic(auto, using(crate::proofs::Makes::set_out, crate::proofs::Drivers::output_grows))]
    pub fn output(&mut self, pool: &Pool, port: u32, net: Net)
        requires room { 1 ≤ self.old.room }
        requires there { port < 30 }
        requires output { is_input (port_at port) ≡ false }
        requires free { out_at self.old.outs port ≡ None }
        requires fits { FitsIn self.old pool.now net }
        requires width { net.width ≡ width_of (port_at port) }
        ensures driven { out_at self.new.outs port ≡ Some net }
        ensures others { (k : ℕ) → (k ≡ port → ⊥) → out_at self.new.outs k ≡ out_at self.old.outs k }
        ensures count { length self.new.outs ≡ length self.old.outs }
        ensures wires { self.new.wires ≡ self.old.wires }
        ensures regs { self.new.regs ≡ self.old.regs }
        ensures arrays { self.new.arrays ≡ self.old.arrays }
        ensures room { self.new.room + 1 ≡ self.old.room }
        ensures grows { Grows self.old self.new 1 }
        ensures makes { (by : Owner) (r : Rights) → r.outs port ≡ true → Makes by r self.old self.new 1 }
        ensures drivers { DriversFit self.old pool.now → DriversFit self.new pool.now }
    {
        let _ = pool;
        self.room -= 1;
        self.outs[port as usize] = Some(net);
    }
}
