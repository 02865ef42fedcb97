ghost use Rattle.std.specs.Prelude.{◌≡◌, ℕ, ◌+◌, ◌<◌, ◌≤◌, ◌^◌, ◌⊎◌, Some, None, length};
ghost use Rattle.hw_pool.specs.Nodes.{IsWidth};
ghost use Rattle.hw_gates.specs.Places.{Has, IsIn};
ghost use Rattle.hw_module.specs.declared.rows.Owner.TheVariants.{Entry};
ghost use Rattle.hw_module.specs.Checked.{DriversFit};
ghost use Rattle.hw_module.specs.Rows.{IsReset, reg_at};
ghost use Rattle.hw_module.specs.Scope.{scope_of};
ghost use Rattle.plug_dbus.specs.Nets.{AreNexts, AreNextsIn};
ghost use Rattle.plug_dbus.specs.Registers.{AreMoved, AreOpen, MakesRegs, MovesRegs, open_row};

use crate::unit::Nexts;
use hw_expr::Net;
use hw_pool::Pool;
use plug_build::Builder;

/// Makes a register. It takes no memory.
fn make_reg(b: &mut Builder, width: u32, reset: Option<u64>) -> u32
    requires room { 1 ≤ b.old.design.room }
    requires width { IsWidth width }
    requires reset { IsReset width reset }
    ensures number { result ≡ length b.old.design.regs }
    ensures made { reg_at b.new.design.regs (length b.old.design.regs) ≡ open_row b.old.entry width reset }
    ensures makes { MakesRegs 1 b.old b.new }
{
    b.reg(width, reset)
}

/// Makes the six registers. It takes no memory.
fn make_six(b: &mut Builder)
    requires room { 6 ≤ b.old.design.room }
    ensures are_open { AreOpen b.new.design b.old.entry (length b.old.design.regs) }
    ensures makes { MakesRegs 6 b.old b.new }
{
    let _given = make_reg(b, 1, Some(0));
    let _owed = make_reg(b, 1, Some(0));
    let _address = make_reg(b, 32, None);
    let _writes = make_reg(b, 1, None);
    let _payload = make_reg(b, 32, None);
    let _mask = make_reg(b, 4, None);
}

/// Makes the registers of the part, and answers the number of the first. It takes no memory.
pub(crate) fn make_regs(b: &mut Builder) -> u32
    requires room { 6 ≤ b.old.design.room }
    ensures first { result ≡ length b.old.design.regs }
    ensures few { length b.new.design.regs < 2 ^ 32 }
    ensures are_open { AreOpen b.new.design b.old.entry result }
    ensures makes { MakesRegs 6 b.old b.new }
{
    let first = b.regs().len() as u32;
    make_six(b);
    let _rows = b.regs();
    first
}

/// Gives a register of the entry, which has none, its next value.
fn move_reg(b: &mut Builder, pool: &Pool, reg: u32, net: Net)
    requires room { 1 ≤ b.old.design.room }
    requires there { reg < length b.old.design.regs }
    requires own { (reg_at b.old.design.regs reg).owner ≡ Entry b.old.entry }
    requires free { (reg_at b.old.design.regs reg).next ≡ None }
    requires has { Has pool.now net }
    requires scope { IsIn (scope_of b.old.design) pool.now net }
    requires width { net.width ≡ (reg_at b.old.design.regs reg).width }
    requires drivers { DriversFit b.old.design pool.now }
    ensures driven { reg_at b.new.design.regs reg ≡ record (reg_at b.old.design.regs reg) { next = Some net } }
    ensures others { (k : ℕ) → (k ≡ reg → ⊥) → reg_at b.new.design.regs k ≡ reg_at b.old.design.regs k }
    ensures moves { MovesRegs 1 b.old b.new }
    ensures drivers { DriversFit b.new.design pool.now }
{
    b.next(pool, reg, net);
}

/// Gives the registers of the part, from `first` on, their next values.
pub(crate) fn move_regs(b: &mut Builder, pool: &Pool, first: u32, n: Nexts)
    requires room { 6 ≤ b.old.design.room }
    requires few { length b.old.design.regs < 2 ^ 32 }
    requires are_open { AreOpen b.old.design b.old.entry first }
    requires nets { AreNexts pool.now n }
    requires scope { AreNextsIn (scope_of b.old.design) pool.now n }
    requires drivers { DriversFit b.old.design pool.now }
    ensures moved { AreMoved b.new.design b.old.entry first n }
    ensures moves { MovesRegs 6 b.old b.new }
    ensures drivers { DriversFit b.new.design pool.now }
{
    move_reg(b, pool, first, n.given);
    move_reg(b, pool, first + 1, n.owed);
    move_reg(b, pool, first + 2, n.address);
    move_reg(b, pool, first + 3, n.writes);
    move_reg(b, pool, first + 4, n.payload);
    move_reg(b, pool, first + 5, n.mask);
}
