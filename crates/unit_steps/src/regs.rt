ghost use Rattle.std.specs.Prelude.{◌≡◌, ℕ, ◌+◌, ◌<◌, ◌≤◌, ◌^◌, ◌⊎◌, length};
ghost use Rattle.hw_module.specs.Checked.{DriversFit};
ghost use Rattle.hw_module.specs.Rows.{reg_at};
ghost use Rattle.unit_steps.specs.Registers.{AreOpenRegs, AreWidths, CanTakeAll, DrivesRegs, HaveTaken, MakesRegs};

use hw_expr::Net;
use hw_pool::Pool;
use plug_build::Builder;

/// Makes registers of these widths, one behind the other, without reset. It takes no memory.
pub fn make_regs(b: &mut Builder, widths: &[u32])
    requires room { length widths.now ≤ b.old.design.room }
    requires widths { AreWidths widths.now }
    ensures regs { AreOpenRegs b.new.design b.old.entry (length b.old.design.regs) widths.now }
    ensures makes { MakesRegs (length widths.now) b.old b.new }
{
    match widths {
        [] => {}
        [width, rest @ ..] => {
            b.reg(*width, None);
            make_regs(b, rest);
        }
    }
}

/// Gives registers of the entry, from `first` on, these nets as their next values. It takes no memory.
pub fn drive_regs(b: &mut Builder, pool: &Pool, first: u32, nets: &[Net])
    requires room { length nets.now ≤ b.old.design.room }
    requires few { first + length nets.now < 2 ^ 32 }
    requires fit { CanTakeAll b.old.design pool.now b.old.entry first nets.now }
    ensures taken { HaveTaken b.old.design b.new.design first nets.now }
    ensures others { (k : ℕ) → (k < first) ⊎ (first + length nets.now ≤ k) → reg_at b.new.design.regs k ≡ reg_at b.old.design.regs k }
    ensures drives { DrivesRegs (length nets.now) b.old b.new }
    ensures drivers { DriversFit b.old.design pool.now → DriversFit b.new.design pool.now }
{
    match nets {
        [] => {}
        [net, rest @ ..] => {
            b.next(pool, first, *net);
            drive_regs(b, pool, first + 1, rest);
        }
    }
}
