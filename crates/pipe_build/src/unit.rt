ghost use Rattle.std.specs.Prelude.{◌≡◌, ℕ, ◌+◌, ◌*◌, ◌<◌, ◌≤◌, ◌^◌, All, List, false, get_or, length};
ghost use Rattle.hw_pool.specs.declared.node.Node.{Node};
ghost use Rattle.hw_pool.specs.Scope.{Scope};
ghost use Rattle.hw_gates.specs.Places.{Step};
ghost use Rattle.hw_module.specs.Checked.{DriversFit};
ghost use Rattle.hw_module.specs.Scope.{scope_of};
ghost use Rattle.plug_part.specs.Part.{PortTrees};
ghost use Rattle.plug_part.specs.Owned.{is_among};
ghost use Rattle.service_ports.specs.Ports.{exec_ports};
ghost use Rattle.pipe_drive.specs.Rights.{is_exec_input};
ghost use Rattle.pipe_steps.specs.Drives.{DrivesUnit};
ghost use Rattle.pipe_steps.specs.Numbers.{units_of};
ghost use Rattle.pipe_steps.specs.Things.{PipeThings, PipeUnit};
ghost use Rattle.pipe_steps.specs.Values.{clear_in, go_in};
ghost use Rattle.pipe_build.specs.AllNets.{AreNets};
ghost use Rattle.pipe_build.specs.Bears.{Bears};
ghost use Rattle.pipe_build.specs.Made.{IsReg};
ghost use Rattle.pipe_build.specs.Undriven.{AreUndriven, DriveUnit, IsUndriven, UnitsOnly, unit_of};

use crate::nets::{PipeNets, UnitDrivers};
use crate::read::read_reg;
use hw_expr::Net;
use hw_gates::{and, eq, lit, mux, not};
use hw_module::Module;
use hw_pool::Pool;
use pipe_drive::{drive_wires, move_regs};
use pipe_nets::{clears, goes};
use service_ports::ExecOffer;

/// One bit: 1 where a unit is given the item in front; `own` is its register.
fn go_driver(pool: &mut Pool, n: PipeNets, own: Net, commits: bool) -> Net
    requires spare { 1 ≤ pool.old.spare }
    requires nets { (s : Scope) × (p : PipeThings) × (take : ℕ) × (reg : ℕ) × AreNets s pool.old p take n × Bears s pool.old 1 0 (λ env. env.regs reg) own }
    ensures bears { (s : Scope) (p : PipeThings) (take : ℕ) (u : PipeUnit) → p.shape.commits u.entry ≡ commits → AreNets s pool.old p take n
        → Bears s pool.old 1 0 (λ env. env.regs u.chosen) own → Bears s pool.new 1 3 (λ env. go_in p env u) result }
    ensures step { Step pool.old pool.new 1 }
{
    if commits {
        goes(pool, n.known.wires.run, own)
    } else {
        goes(pool, n.known.regs.valid, own)
    }
}

/// One bit: 1 where a unit that works ahead gives up.
fn clear_driver(pool: &mut Pool, n: PipeNets, commits: bool) -> Net
    requires spare { 1 ≤ pool.old.spare }
    requires nets { (s : Scope) × (p : PipeThings) × (take : ℕ) × AreNets s pool.old p take n }
    ensures bears { (s : Scope) (p : PipeThings) (take : ℕ) (u : PipeUnit) → p.shape.commits u.entry ≡ commits → AreNets s pool.old p take n
        → Bears s pool.new 1 2 (λ env. clear_in p env u) result }
    ensures step { Step pool.old pool.new 1 }
{
    if commits {
        lit(pool, 1, 0)
    } else {
        clears(pool, n.known.wires.kill, n.known.wires.irq)
    }
}

/// What is of one unit: its entry is `by`, its register `chosen`.
fn unit_drivers(
    m: &Module,
    pool: &mut Pool,
    n: PipeNets,
    by: u32,
    chosen: u32,
    commits: bool,
) -> UnitDrivers
    requires spare { 8 ≤ pool.old.spare }
    requires few { by < 32 }
    requires row { IsReg m.now chosen 1 }
    requires nets { (p : PipeThings) × (take : ℕ) × AreNets (scope_of m.now) pool.old p take n }
    ensures drivers { (p : PipeThings) (take : ℕ) (ports : PortTrees) → p.shape.commits by ≡ commits → AreNets (scope_of m.now) pool.old p take n
        → DriveUnit (scope_of m.now) pool.new p (record { entry = by; chosen = chosen; ports = ports }) result }
    ensures step { Step pool.old pool.new 8 }
{
    let own = read_reg(m, pool, chosen);
    let go = go_driver(pool, n, own, commits);
    let clear = clear_driver(pool, n, commits);
    let entry = lit(pool, 5, by as u64);
    let same = eq(pool, n.known.decoder.unit, entry);
    let here = not(pool, n.mids.fresh_except);
    let fresh = and(pool, same, here);
    let next = mux(pool, n.known.wires.enters, fresh, own);
    UnitDrivers { go, clear, next }
}

/// Drives the inputs of one unit, and its register.
fn drive_unit(
    m: &mut Module,
    pool: &mut Pool,
    n: PipeNets,
    exec: ExecOffer,
    chosen: u32,
    commits: bool,
)
    requires room { 8 ≤ m.old.room }
    requires spare { 8 ≤ pool.old.spare }
    requires few { chosen + 1 < 2 ^ 32 }
    requires ready { IsUndriven m.old chosen exec }
    requires nets { (p : PipeThings) × (take : ℕ) × (p.shape.commits exec.by ≡ commits) × AreNets (scope_of m.old) pool.old p take n }
    ensures unit { (nodes : List Node) (p : PipeThings) (take : ℕ) → p.shape.commits exec.by ≡ commits → AreNets (scope_of m.old) pool.old p take n
        → DrivesUnit m.new pool.new.nodes p (unit_of nodes chosen exec) }
    ensures only { UnitsOnly (λ k. is_among k (exec_ports exec.ports).inputs) chosen 1 m.old m.new }
    ensures drivers { DriversFit m.old pool.old → DriversFit m.new pool.new }
    ensures step { Step pool.old pool.new 8 }
{
    let d = unit_drivers(m, pool, n, exec.by, chosen, commits);
    let to = exec.ports;
    let slot = n.known.regs.slot;
    drive_wires(
        m,
        pool,
        &[
            (to.go, d.go),
            (to.row, slot.row),
            (to.pc, slot.pc),
            (to.word, slot.word),
            (to.a, slot.a),
            (to.b, slot.b),
            (to.clear, d.clear),
        ],
    );
    move_regs(m, pool, chosen, &[d.next]);
}

/// Drives the inputs of the units, and their registers, which are numbered from `chosen` on; `commits` says of each entry whether it works
/// in the stage that commits.
pub(crate) fn drive_units(
    m: &mut Module,
    pool: &mut Pool,
    n: PipeNets,
    execs: &[ExecOffer],
    chosen: u32,
    commits: &[bool],
)
    requires room { 8 * length execs.now ≤ m.old.room }
    requires spare { 8 * length execs.now ≤ pool.old.spare }
    requires few { chosen + length execs.now < 2 ^ 32 }
    requires commits { 32 ≤ length commits.now }
    requires ready { AreUndriven m.old chosen execs.now }
    requires drivers { DriversFit m.old pool.old }
    requires nets { (p : PipeThings) × (take : ℕ) × ((k : ℕ) → k < 32 → p.shape.commits k ≡ get_or commits.now k false) × AreNets (scope_of m.old) pool.old p take n }
    ensures units { (nodes : List Node) (p : PipeThings) (take : ℕ) → ((k : ℕ) → k < 32 → p.shape.commits k ≡ get_or commits.now k false)
        → AreNets (scope_of m.old) pool.old p take n → All (DrivesUnit m.new pool.new.nodes p) (units_of nodes chosen execs.now) }
    ensures only { UnitsOnly (is_exec_input execs.now) chosen (length execs.now) m.old m.new }
    ensures drivers { DriversFit m.new pool.new }
    ensures step { Step pool.old pool.new (8 * length execs.now) }
{
    match execs {
        [] => {}
        [first, rest @ ..] => {
            drive_unit(m, pool, n, *first, chosen, commits[first.by as usize]);
            drive_units(m, pool, n, rest, chosen + 1, commits);
        }
    }
}
