ghost use Rattle.std.specs.Prelude.{◌≡◌, ℕ, ◌+◌, ◌*◌, ◌<◌, ◌≤◌, ◌^◌, IsTrue, false, true};
ghost use Rattle.hw_pool.specs.Meaning.{Env};
ghost use Rattle.hw_pool.specs.Scope.{Scope};
ghost use Rattle.hw_gates.specs.Places.{Step};
ghost use Rattle.hw_module.specs.Scope.{scope_of};
ghost use Rattle.pipe_steps.specs.Equations.{we_of};
ghost use Rattle.pipe_steps.specs.Numbers.{tail_from};
ghost use Rattle.pipe_steps.specs.Values.{LateValue, leaving};
ghost use Rattle.pipe_steps.specs.Things.{PipeThings};
ghost use Rattle.pipe_build.specs.Bears.{Bears};
ghost use Rattle.pipe_build.specs.DrivenBy.{DriveFront};
ghost use Rattle.pipe_build.specs.Known.{IsKnown};
ghost use Rattle.pipe_build.specs.AllNets.{DriveTail};
ghost use Rattle.pipe_build.specs.Late.{BearsLate, BearsStage, HasTail, IsPlace, late_at, stage_at};

use crate::nets::{FrontNets, Known, LateNets, StageNets, TailNets};
use crate::read::read_reg;
use hw_expr::Net;
use hw_gates::{and, lit, not};
use hw_module::Module;
use hw_pool::Pool;

/// The result that a place holds, whose registers are numbered from `reg` on.
fn late_nets(m: &Module, pool: &mut Pool, reg: u32) -> LateNets
    requires spare { 3 ≤ pool.old.spare }
    requires few { reg + 3 < 2 ^ 32 }
    requires row { IsPlace m.now reg }
    ensures late { BearsLate (scope_of m.now) pool.new 0 (late_at reg) result }
    ensures step { Step pool.old pool.new 3 }
{
    let writes = read_reg(m, pool, reg);
    let rd = read_reg(m, pool, reg + 1);
    let value = read_reg(m, pool, reg + 2);
    LateNets { writes, rd, value }
}

/// What Hazard sees of a place whose registers are numbered from `reg` on; zeros where there is none.
fn place_nets(m: &Module, pool: &mut Pool, reg: u32, there: bool) -> StageNets
    requires spare { 4 ≤ pool.old.spare }
    requires few { IsTrue there → reg + 3 < 2 ^ 32 }
    requires row { IsTrue there → IsPlace m.now reg }
    ensures stage { BearsStage (scope_of m.now) pool.new (stage_at there reg) result }
    ensures step { Step pool.old pool.new 4 }
{
    if there {
        let late = late_nets(m, pool, reg);
        let ready = lit(pool, 1, 1);
        StageNets {
            writes: late.writes,
            rd: late.rd,
            ready,
            value: late.value,
        }
    } else {
        let writes = lit(pool, 1, 0);
        let rd = lit(pool, 5, 0);
        let ready = lit(pool, 1, 0);
        let value = lit(pool, 32, 0);
        StageNets {
            writes,
            rd,
            ready,
            value,
        }
    }
}

/// What Hazard sees of a place by its number; `reg` is the first register of all places.
fn stage_nets(m: &Module, pool: &mut Pool, reg: u32, place: u32, places: u32) -> StageNets
    requires spare { 4 ≤ pool.old.spare }
    requires few { reg + 3 * places < 2 ^ 32 }
    requires rows { HasTail m.now reg places }
    ensures there { place < places → BearsStage (scope_of m.now) pool.new (stage_at true (reg + 3 * place)) result }
    ensures beyond { places ≤ place → BearsStage (scope_of m.now) pool.new (stage_at false reg) result }
    ensures step { Step pool.old pool.new 4 }
{
    if place < places {
        place_nets(m, pool, reg + 3 * place, true)
    } else {
        place_nets(m, pool, reg, false)
    }
}

/// The result that leaves the places for the registers: what the last of them holds, and without places what enters.
fn leaving_nets(m: &Module, pool: &mut Pool, made: LateNets, reg: u32, places: u32) -> LateNets
    requires spare { 3 ≤ pool.old.spare }
    requires few { reg + 3 * places < 2 ^ 32 }
    requires most { places ≤ 2 }
    requires rows { HasTail m.now reg places }
    ensures late { (f : Env → LateValue) → BearsLate (scope_of m.now) pool.old 7 f made → BearsLate (scope_of m.now) pool.new 7 (λ env. leaving env (f env) (tail_from reg places)) result }
    ensures step { Step pool.old pool.new 3 }
{
    if places == 0 {
        made
    } else {
        late_nets(m, pool, reg + 3 * (places - 1))
    }
}

/// The value of the input `reset`.
fn read_reset(m: &Module, pool: &mut Pool) -> Net
    requires spare { 1 ≤ pool.old.spare }
    ensures bears { Bears (scope_of m.now) pool.new 1 0 (λ env. env.inputs 1) result }
    ensures step { Step pool.old pool.new 1 }
{
    m.input(pool, 1)
}

/// One bit: 1 where a register is written: never in a cycle with `reset`.
fn enable_net(m: &Module, pool: &mut Pool, writes: Net) -> Net
    requires spare { 3 ≤ pool.old.spare }
    requires writes { (s : Scope) × (f : Env → ℕ) × Bears s pool.old 1 7 f writes }
    ensures bears { (f : Env → ℕ) → Bears (scope_of m.now) pool.old 1 7 f writes → Bears (scope_of m.now) pool.new 1 7 (λ env. we_of (env.inputs 1) (f env)) result }
    ensures step { Step pool.old pool.new 3 }
{
    let reset = read_reset(m, pool);
    let runs = not(pool, reset);
    and(pool, runs, writes)
}

/// What is on its way to the registers; the places' registers are numbered from `reg` on.
pub(crate) fn tail_nets(
    m: &Module,
    pool: &mut Pool,
    k: Known,
    front: FrontNets,
    reg: u32,
    places: u32,
) -> TailNets
    requires spare { 14 ≤ pool.old.spare }
    requires few { reg + 3 * places < 2 ^ 32 }
    requires most { places ≤ 2 }
    requires rows { HasTail m.now reg places }
    requires known { (p : PipeThings) × IsKnown (scope_of m.now) pool.old p k × DriveFront (scope_of m.now) pool.old p front }
    ensures tail { (p : PipeThings) → p.own.tail ≡ tail_from reg places → IsKnown (scope_of m.now) pool.old p k → DriveFront (scope_of m.now) pool.old p front
        → DriveTail (scope_of m.now) pool.new p result }
    ensures step { Step pool.old pool.new 14 }
{
    let made = LateNets {
        writes: k.wires.writes,
        rd: front.rd,
        value: k.units.value,
    };
    let leaving = leaving_nets(m, pool, made, reg, places);
    let enable = enable_net(m, pool, leaving.writes);
    let second = stage_nets(m, pool, reg, 0, places);
    let third = stage_nets(m, pool, reg, 1, places);
    TailNets {
        made,
        leaving,
        enable,
        second,
        third,
    }
}
