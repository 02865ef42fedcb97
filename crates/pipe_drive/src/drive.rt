ghost use Rattle.std.specs.Prelude.{◌+◌, ◌<◌, ◌≤◌, ◌^◌, length};
ghost use Rattle.hw_module.specs.Checked.{DriversFit};
ghost use Rattle.plug_build.specs.Fits.{AreApart};
ghost use Rattle.pipe_drive.specs.Drives.{CanDriveAll, CanMoveAll, CanShowAll, DrivesOnly, HasDrivers, HasNexts, HasOuts, MovesOnly, ShowsOnly, targets};

use hw_expr::Net;
use hw_module::Module;
use hw_pool::Pool;

/// Drives forward wires, each with its net. No number comes twice.
pub fn drive_wires(m: &mut Module, pool: &Pool, drives: &[(u32, Net)])
    requires room { length drives.now ≤ m.old.room }
    requires apart { AreApart (targets drives.now) }
    requires fit { CanDriveAll m.old pool.now drives.now }
    ensures driven { HasDrivers m.new drives.now }
    ensures only { DrivesOnly (targets drives.now) m.old m.new (length drives.now) }
    ensures drivers { DriversFit m.old pool.now → DriversFit m.new pool.now }
{
    match drives {
        [] => {}
        [first, rest @ ..] => {
            m.drive(pool, first.0, first.1);
            drive_wires(m, pool, rest);
        }
    }
}

/// Gives the registers from this one on their next values.
pub fn move_regs(m: &mut Module, pool: &Pool, first: u32, nets: &[Net])
    requires room { length nets.now ≤ m.old.room }
    requires few { first + length nets.now < 2 ^ 32 }
    requires fit { CanMoveAll m.old pool.now first nets.now }
    ensures driven { HasNexts m.new first nets.now }
    ensures only { MovesOnly first m.old m.new (length nets.now) }
    ensures drivers { DriversFit m.old pool.now → DriversFit m.new pool.now }
{
    match nets {
        [] => {}
        [net, rest @ ..] => {
            m.next(pool, first, *net);
            move_regs(m, pool, first + 1, rest);
        }
    }
}

/// Drives outputs of the core, each with its net, by the numbers of their ports. No number comes twice.
pub fn drive_outs(m: &mut Module, pool: &Pool, drives: &[(u32, Net)])
    requires room { length drives.now ≤ m.old.room }
    requires apart { AreApart (targets drives.now) }
    requires fit { CanShowAll m.old pool.now drives.now }
    ensures driven { HasOuts m.new drives.now }
    ensures only { ShowsOnly (targets drives.now) m.old m.new (length drives.now) }
    ensures drivers { DriversFit m.old pool.now → DriversFit m.new pool.now }
{
    match drives {
        [] => {}
        [first, rest @ ..] => {
            m.output(pool, first.0, first.1);
            drive_outs(m, pool, rest);
        }
    }
}
