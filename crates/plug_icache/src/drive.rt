ghost use Rattle.std.specs.Prelude.{◌≡◌, ℕ, ◌+◌, ◌<◌, ◌-◌, ◌≤◌, ◌^◌, ◌⊎◌, Some, None, length};
ghost use Rattle.hw_gates.specs.Places.{Has, IsIn};
ghost use Rattle.hw_module.specs.declared.rows.Owner.TheVariants.{Entry};
ghost use Rattle.hw_module.specs.Checked.{DriversFit};
ghost use Rattle.hw_module.specs.Rows.{array_at, reg_at};
ghost use Rattle.hw_module.specs.Scope.{scope_of};
ghost use Rattle.cache_nets.specs.Nets.{AreFour, AreFourIn, AreNexts, AreNextsIn};
ghost use Rattle.plug_icache.specs.Registers.{AreOpenArrays, AreOpenRegs, CanDrive, Drives, IsDrivenFour, Writes, driven_array};

use cache_nets::{Four, Nexts, Sizes};
use hw_expr::Net;
use hw_pool::Pool;
use plug_build::Builder;

/// Gives a register of the entry, which has none, its next value.
fn drive_reg(b: &mut Builder, pool: &Pool, reg: u32, net: Net)
    requires room { 1 ≤ b.old.design.room }
    requires there { reg < length b.old.design.regs }
    requires own { (reg_at b.old.design.regs reg).owner ≡ Entry b.old.entry }
    requires free { (reg_at b.old.design.regs reg).next ≡ None }
    requires has { Has pool.now net }
    requires scope { IsIn (scope_of b.old.design) pool.now net }
    requires width { net.width ≡ (reg_at b.old.design.regs reg).width }
    requires drivers { DriversFit b.old.design pool.now }
    ensures driven { reg_at b.new.design.regs reg ≡ record (reg_at b.old.design.regs reg) { next = Some net } }
    ensures others { (k : ℕ) → (k ≡ reg → ⊥) → reg_at b.new.design.regs k ≡ reg_at b.old.design.regs k }
    ensures drives { Drives 1 b.old b.new }
    ensures drivers { DriversFit b.new.design pool.now }
{
    b.next(pool, reg, net);
}

/// Gives four registers that follow each other, from `reg` on, their next values.
fn drive_four(b: &mut Builder, pool: &Pool, reg: u32, n: Four)
    requires room { 4 ≤ b.old.design.room }
    requires few { length b.old.design.regs < 2 ^ 32 }
    requires open { CanDrive b.old.design b.old.entry reg n }
    requires nets { AreFour pool.now n n.first.width n.second.width n.third.width n.fourth.width }
    requires scope { AreFourIn (scope_of b.old.design) pool.now n }
    requires drivers { DriversFit b.old.design pool.now }
    ensures first { reg_at b.new.design.regs reg ≡ record (reg_at b.old.design.regs reg) { next = Some n.first } }
    ensures second { reg_at b.new.design.regs (reg + 1) ≡ record (reg_at b.old.design.regs (reg + 1)) { next = Some n.second } }
    ensures third { reg_at b.new.design.regs (reg + 2) ≡ record (reg_at b.old.design.regs (reg + 2)) { next = Some n.third } }
    ensures fourth { reg_at b.new.design.regs (reg + 3) ≡ record (reg_at b.old.design.regs (reg + 3)) { next = Some n.fourth } }
    ensures others { (k : ℕ) → (k < reg) ⊎ (reg + 4 ≤ k) → reg_at b.new.design.regs k ≡ reg_at b.old.design.regs k }
    ensures drives { Drives 4 b.old b.new }
    ensures drivers { DriversFit b.new.design pool.now }
{
    drive_reg(b, pool, reg, n.first);
    drive_reg(b, pool, reg + 1, n.second);
    drive_reg(b, pool, reg + 2, n.third);
    drive_reg(b, pool, reg + 3, n.fourth);
}

/// Gives the registers of the part, from `first` on, their next values.
pub(crate) fn drive_regs(b: &mut Builder, pool: &Pool, z: Sizes, first: u32, n: Nexts)
    requires room { 16 ≤ b.old.design.room }
    requires few { length b.old.design.regs < 2 ^ 32 }
    requires open { (reset_pc : ℕ) × AreOpenRegs b.old.design b.old.entry first z.index z.place reset_pc }
    requires nets { AreNexts z pool.now n }
    requires scope { AreNextsIn (scope_of b.old.design) pool.now n }
    requires drivers { DriversFit b.old.design pool.now }
    ensures front { (reset_pc : ℕ) → AreOpenRegs b.old.design b.old.entry first z.index z.place reset_pc
        → IsDrivenFour b.new.design b.old.entry first 32 (z.index + 1) 1 1 (Some reset_pc) (Some 0) (Some 0) (Some 0) n.front }
    ensures reading { IsDrivenFour b.new.design b.old.entry (first + 4) 1 (30 - z.place) z.place 1 (Some 0) None None None n.reading }
    ensures caught { IsDrivenFour b.new.design b.old.entry (first + 8) 1 1 32 1 None (Some 0) None None n.caught }
    ensures item { IsDrivenFour b.new.design b.old.entry (first + 12) 1 32 32 1 (Some 0) None None None n.item }
    ensures drives { Drives 16 b.old b.new }
    ensures drivers { DriversFit b.new.design pool.now }
{
    drive_four(b, pool, first, n.front);
    drive_four(b, pool, first + 4, n.reading);
    drive_four(b, pool, first + 8, n.caught);
    drive_four(b, pool, first + 12, n.item);
}

/// Gives the arrays of tags and of words, from `tags` on, their writes.
pub(crate) fn drive_arrays(b: &mut Builder, pool: &Pool, z: Sizes, tags: u32, n: Nexts)
    requires room { 2 ≤ b.old.design.room }
    requires few { length b.old.design.arrays < 2 ^ 32 }
    requires open { AreOpenArrays b.old.design b.old.entry tags z.index z.place }
    requires nets { AreNexts z pool.now n }
    requires scope { AreNextsIn (scope_of b.old.design) pool.now n }
    requires drivers { DriversFit b.old.design pool.now }
    ensures tag { array_at b.new.design.arrays tags ≡ driven_array b.old.entry (31 - z.place - z.index) z.index n.tag }
    ensures cell { array_at b.new.design.arrays (tags + 1) ≡ driven_array b.old.entry 32 (z.index + z.place) n.cell }
    ensures writes { Writes b.old b.new }
    ensures drivers { DriversFit b.new.design pool.now }
{
    b.write(pool, tags, n.tag.enable, n.tag.addr, n.tag.value);
    b.write(pool, tags + 1, n.cell.enable, n.cell.addr, n.cell.value);
}
