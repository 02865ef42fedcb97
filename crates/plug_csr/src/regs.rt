ghost use Rattle.std.specs.Prelude.{◌≡◌, ℕ, ◌+◌, ◌<◌, ◌≤◌, ◌^◌, ◌⊎◌, Some, None, length};
ghost use Rattle.hw_pool.specs.Nodes.{IsWidth};
ghost use Rattle.hw_gates.specs.Places.{Has, IsIn};
ghost use Rattle.hw_module.specs.declared.rows.Owner.TheVariants.{Entry};
ghost use Rattle.hw_module.specs.Checked.{DriversFit};
ghost use Rattle.hw_module.specs.Rows.{reg_at};
ghost use Rattle.hw_module.specs.Scope.{scope_of};
ghost use Rattle.csr_nets.specs.Nets.{AreNexts, AreNextsIn};
ghost use Rattle.plug_csr.specs.Registers.{AreFlags, AreFlagsMoved, AreMoved, AreOpen, AreWords, AreWordsMoved, MakesRegs, MovesRegs, open_row};

use csr_nets::Nexts;
use hw_expr::Net;
use hw_pool::Pool;
use plug_build::Builder;

/// Makes a register with the reset 0. It takes no memory.
fn make_reg(b: &mut Builder, width: u32) -> u32
    requires room { 1 ≤ b.old.design.room }
    requires width { IsWidth width }
    ensures number { result ≡ length b.old.design.regs }
    ensures made { reg_at b.new.design.regs (length b.old.design.regs) ≡ open_row b.old.entry width }
    ensures makes { MakesRegs 1 b.old b.new }
{
    b.reg(width, Some(0))
}

/// Makes the registers of one bit. It takes no memory.
fn make_flags(b: &mut Builder)
    requires room { 5 ≤ b.old.design.room }
    ensures flags { AreFlags b.new.design b.old.entry (length b.old.design.regs) }
    ensures makes { MakesRegs 5 b.old b.new }
{
    let _on = make_reg(b, 1);
    let _was = make_reg(b, 1);
    let _soft = make_reg(b, 1);
    let _timer = make_reg(b, 1);
    let _outer = make_reg(b, 1);
}

/// Makes the others. It takes no memory.
fn make_words(b: &mut Builder)
    requires room { 5 ≤ b.old.design.room }
    ensures words { AreWords b.new.design b.old.entry (length b.old.design.regs) }
    ensures makes { MakesRegs 5 b.old b.new }
{
    let _tvec = make_reg(b, 30);
    let _epc = make_reg(b, 30);
    let _scratch = make_reg(b, 32);
    let _cause = make_reg(b, 32);
    let _tval = make_reg(b, 32);
}

/// Makes the ten registers. It takes no memory.
fn make_ten(b: &mut Builder)
    requires room { 10 ≤ b.old.design.room }
    ensures are_open { AreOpen b.new.design b.old.entry (length b.old.design.regs) }
    ensures makes { MakesRegs 10 b.old b.new }
{
    make_flags(b);
    make_words(b);
}

/// Makes the registers of the part, and answers the number of the first. It takes no memory.
pub(crate) fn make_regs(b: &mut Builder) -> u32
    requires room { 10 ≤ b.old.design.room }
    ensures first { result ≡ length b.old.design.regs }
    ensures few { length b.new.design.regs < 2 ^ 32 }
    ensures are_open { AreOpen b.new.design b.old.entry result }
    ensures makes { MakesRegs 10 b.old b.new }
{
    let first = b.regs().len() as u32;
    make_ten(b);
    let _rows = b.regs();
    first
}

/// Gives a register of the entry, which has none, its next value.
fn move_reg(b: &mut Builder, pool: &Pool, reg: u32, net: Net)
    requires room { 1 ≤ b.old.design.room }
    requires there { reg < length b.old.design.regs }
    requires own { (reg_at b.old.design.regs reg).owner ≡ Entry b.old.entry }
    requires free { (reg_at b.old.design.regs reg).next ≡ None }
    requires has { Has pool.now net }
    requires scope { IsIn (scope_of b.old.design) pool.now net }
    requires width { net.width ≡ (reg_at b.old.design.regs reg).width }
    requires drivers { DriversFit b.old.design pool.now }
    ensures driven { reg_at b.new.design.regs reg ≡ record (reg_at b.old.design.regs reg) { next = Some net } }
    ensures others { (k : ℕ) → (k ≡ reg → ⊥) → reg_at b.new.design.regs k ≡ reg_at b.old.design.regs k }
    ensures moves { MovesRegs 1 b.old b.new }
    ensures drivers { DriversFit b.new.design pool.now }
{
    b.next(pool, reg, net);
}

/// Gives the registers of one bit, from `first` on, their next values.
fn move_flags(b: &mut Builder, pool: &Pool, first: u32, n: Nexts)
    requires room { 5 ≤ b.old.design.room }
    requires few { length b.old.design.regs < 2 ^ 32 }
    requires are_open { AreFlags b.old.design b.old.entry first }
    requires nets { AreNexts pool.now n }
    requires scope { AreNextsIn (scope_of b.old.design) pool.now n }
    requires drivers { DriversFit b.old.design pool.now }
    ensures moved { AreFlagsMoved b.new.design b.old.entry first n }
    ensures others { (k : ℕ) → first + 5 ≤ k → reg_at b.new.design.regs k ≡ reg_at b.old.design.regs k }
    ensures moves { MovesRegs 5 b.old b.new }
    ensures drivers { DriversFit b.new.design pool.now }
{
    move_reg(b, pool, first, n.on);
    move_reg(b, pool, first + 1, n.was);
    move_reg(b, pool, first + 2, n.soft);
    move_reg(b, pool, first + 3, n.timer);
    move_reg(b, pool, first + 4, n.outer);
}

/// Gives the others, from `first` on, their next values.
fn move_words(b: &mut Builder, pool: &Pool, first: u32, n: Nexts)
    requires room { 5 ≤ b.old.design.room }
    requires few { length b.old.design.regs < 2 ^ 32 }
    requires are_open { AreWords b.old.design b.old.entry first }
    requires nets { AreNexts pool.now n }
    requires scope { AreNextsIn (scope_of b.old.design) pool.now n }
    requires drivers { DriversFit b.old.design pool.now }
    ensures moved { AreWordsMoved b.new.design b.old.entry first n }
    ensures others { (k : ℕ) → k < first → reg_at b.new.design.regs k ≡ reg_at b.old.design.regs k }
    ensures moves { MovesRegs 5 b.old b.new }
    ensures drivers { DriversFit b.new.design pool.now }
{
    move_reg(b, pool, first, n.tvec);
    move_reg(b, pool, first + 1, n.epc);
    move_reg(b, pool, first + 2, n.scratch);
    move_reg(b, pool, first + 3, n.cause);
    move_reg(b, pool, first + 4, n.tval);
}

/// Gives the registers of the part, from `first` on, their next values.
pub(crate) fn move_regs(b: &mut Builder, pool: &Pool, first: u32, n: Nexts)
    requires room { 10 ≤ b.old.design.room }
    requires few { length b.old.design.regs < 2 ^ 32 }
    requires are_open { AreOpen b.old.design b.old.entry first }
    requires nets { AreNexts pool.now n }
    requires scope { AreNextsIn (scope_of b.old.design) pool.now n }
    requires drivers { DriversFit b.old.design pool.now }
    ensures moved { AreMoved b.new.design b.old.entry first n }
    ensures moves { MovesRegs 10 b.old b.new }
    ensures drivers { DriversFit b.new.design pool.now }
{
    move_flags(b, pool, first, n);
    move_words(b, pool, first + 5, n);
}
