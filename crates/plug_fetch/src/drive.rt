ghost use Rattle.std.specs.Prelude.{◌≡◌, ℕ, ◌+◌, ◌<◌, ◌≤◌, Some, None, length};
ghost use Rattle.hw_gates.specs.Places.{Has, IsIn};
ghost use Rattle.hw_module.specs.declared.rows.Owner.TheVariants.{Entry};
ghost use Rattle.hw_module.specs.Checked.{DriversFit};
ghost use Rattle.hw_module.specs.Rows.{reg_at};
ghost use Rattle.hw_module.specs.Scope.{scope_of};
ghost use Rattle.plug_fetch.specs.Registers.{Drives};

use hw_expr::Net;
use hw_pool::Pool;
use plug_build::Builder;

/// Gives a register of the entry, which has none, its next value.
pub(crate) fn drive_reg(b: &mut Builder, pool: &Pool, reg: u32, net: Net)
    requires room { 1 ≤ b.old.design.room }
    requires there { reg < length b.old.design.regs }
    requires own { (reg_at b.old.design.regs reg).owner ≡ Entry b.old.entry }
    requires free { (reg_at b.old.design.regs reg).next ≡ None }
    requires has { Has pool.now net }
    requires scope { IsIn (scope_of b.old.design) pool.now net }
    requires width { net.width ≡ (reg_at b.old.design.regs reg).width }
    requires drivers { DriversFit b.old.design pool.now }
    ensures driven { reg_at b.new.design.regs reg ≡ record (reg_at b.old.design.regs reg) { next = Some net } }
    ensures others { (k : ℕ) → (k ≡ reg → ⊥) → reg_at b.new.design.regs k ≡ reg_at b.old.design.regs k }
    ensures drives { Drives 1 b.old b.new }
    ensures drivers { DriversFit b.new.design pool.now }
{
    b.next(pool, reg, net);
}
