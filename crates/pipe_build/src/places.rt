ghost use Rattle.std.specs.Prelude.{◌≡◌, ℕ, ◌+◌, ◌*◌, ◌<◌, ◌≤◌, ◌^◌};
ghost use Rattle.hw_module.specs.Checked.{DriversFit};
ghost use Rattle.hw_module.specs.Scope.{scope_of};
ghost use Rattle.pipe_drive.specs.Drives.{MovesOnly};
ghost use Rattle.pipe_steps.specs.Drives.{TailHas};
ghost use Rattle.pipe_steps.specs.Numbers.{tail_from};
ghost use Rattle.pipe_steps.specs.Things.{PipeThings};
ghost use Rattle.pipe_steps.specs.Values.{made_late_in};
ghost use Rattle.pipe_build.specs.AllNets.{DriveTail};
ghost use Rattle.pipe_build.specs.Late.{ArePlaces};

use crate::nets::TailNets;
use hw_module::Module;
use hw_pool::Pool;
use pipe_drive::move_regs;

/// Gives the places of results on their way their next values; their registers are numbered from `reg` on. What leaves the stage that
/// executes enters the first, and what the first holds the second.
pub(crate) fn drive_places(m: &mut Module, pool: &Pool, reg: u32, places: u32, n: TailNets)
    requires room { 3 * places ≤ m.old.room }
    requires few { reg + 3 * places < 2 ^ 32 }
    requires most { places ≤ 2 }
    requires places { ArePlaces m.old reg places }
    requires nets { (p : PipeThings) × (p.own.tail ≡ tail_from reg places) × DriveTail (scope_of m.old) pool.now p n }
    ensures driven { (p : PipeThings) → p.own.tail ≡ tail_from reg places → DriveTail (scope_of m.old) pool.now p n
        → TailHas m.new pool.now.nodes (λ env. made_late_in p env) p.own.tail }
    ensures only { MovesOnly reg m.old m.new (3 * places) }
    ensures drivers { DriversFit m.old pool.now → DriversFit m.new pool.now }
{
    let nets = [
        n.made.writes,
        n.made.rd,
        n.made.value,
        n.second.writes,
        n.second.rd,
        n.second.value,
    ];
    move_regs(m, pool, reg, &nets[..(3 * places) as usize]);
}
