ghost use Rattle.std.specs.Prelude.{◌≡◌, ℕ, ◌+◌, ◌*◌, ◌<◌, ◌≤◌, ◌^◌, List, length, map};
ghost use Rattle.hw_pool.specs.declared.node.Node.{Node};
ghost use Rattle.hw_pool.specs.Scope.{Scope};
ghost use Rattle.hw_gates.specs.Places.{Step};
ghost use Rattle.hw_module.specs.Scope.{scope_of};
ghost use Rattle.pipe_nets.specs.Picks.{gathered};
ghost use Rattle.pipe_steps.specs.Equations.{any_of};
ghost use Rattle.pipe_steps.specs.Numbers.{units_of};
ghost use Rattle.pipe_steps.specs.Things.{PipeThings, PipeUnit};
ghost use Rattle.pipe_steps.specs.Values.{out_of};
ghost use Rattle.pipe_build.specs.Bears.{Bears};
ghost use Rattle.pipe_build.specs.Known.{AreUnits};
ghost use Rattle.pipe_build.specs.UnitOuts.{AreChosen, AreExecs, net_of, place_of, width_of};

use crate::nets::UnitNets;
use crate::read::read_reg;
use hw_expr::Net;
use hw_gates::{lit, mux, or};
use hw_module::Module;
use hw_pool::Pool;
use service_ports::{ExecOffer, ExecPorts};

/// An output of a unit that is read of the chosen one.
#[derive(Clone, Copy, Debug, PartialEq, Eq)]
pub(crate) enum Output {
    Value,
    NextPc,
    Trap,
    Cause,
    Tval,
    Fence,
}

/// The width of an output.
fn width_of_output(which: Output) -> u32
    ensures { result ≡ width_of which }
{
    match which {
        Output::Trap | Output::Fence => 1,
        _other => 32,
    }
}

/// An output of a unit.
fn output_of(ports: ExecPorts, which: Output) -> Net
    ensures { result ≡ net_of which ports }
{
    match which {
        Output::Value => ports.value,
        Output::NextPc => ports.next_pc,
        Output::Trap => ports.trap,
        Output::Cause => ports.cause,
        Output::Tval => ports.tval,
        Output::Fence => ports.fence,
    }
}

/// An output of the chosen one of some units, whose registers are numbered from `chosen` on: each is masked by its register, and all
/// are joined by "or".
fn gather_units(m: &Module, pool: &mut Pool, execs: &[ExecOffer], chosen: u32, which: Output) -> Net
    requires spare { 4 * length execs.now + 1 ≤ pool.old.spare }
    requires few { chosen + length execs.now < 2 ^ 32 }
    requires rows { AreChosen m.now chosen (length execs.now) }
    requires execs { (nodes : List Node) × AreExecs (scope_of m.now) pool.old nodes execs.now }
    ensures bears { (nodes : List Node) → AreExecs (scope_of m.now) pool.old nodes execs.now
        → Bears (scope_of m.now) pool.new (width_of which) 4 (λ env. gathered (map (λ (u : PipeUnit). (env.regs u.chosen, out_of env u.ports (place_of which))) (units_of nodes chosen execs.now))) result }
    ensures step { Step pool.old pool.new (4 * length execs.now + 1) }
{
    match execs {
        [] => lit(pool, width_of_output(which), 0),
        [first, rest @ ..] => {
            let others = gather_units(m, pool, rest, chosen + 1, which);
            let bit = read_reg(m, pool, chosen);
            let zero = lit(pool, width_of_output(which), 0);
            let output = output_of(first.ports, which);
            let own = mux(pool, bit, output, zero);
            or(pool, own, others)
        }
    }
}

/// One bit: 1 where some of the units is done.
fn any_done(pool: &mut Pool, execs: &[ExecOffer], chosen: u32) -> Net
    requires spare { length execs.now + 1 ≤ pool.old.spare }
    requires few { chosen + length execs.now < 2 ^ 32 }
    requires execs { (s : Scope) × (nodes : List Node) × AreExecs s pool.old nodes execs.now }
    ensures bears { (s : Scope) (nodes : List Node) → AreExecs s pool.old nodes execs.now
        → Bears s pool.new 1 4 (λ env. any_of (map (λ (u : PipeUnit). out_of env u.ports 0) (units_of nodes chosen execs.now))) result }
    ensures step { Step pool.old pool.new (length execs.now + 1) }
{
    match execs {
        [] => lit(pool, 1, 0),
        [first, rest @ ..] => {
            let others = any_done(pool, rest, chosen + 1);
            or(pool, first.ports.done, others)
        }
    }
}

/// Whether some unit is done, and the outputs of the chosen one. The units' registers are numbered from `chosen` on.
pub(crate) fn unit_nets(m: &Module, pool: &mut Pool, execs: &[ExecOffer], chosen: u32) -> UnitNets
    requires spare { 25 * length execs.now + 7 ≤ pool.old.spare }
    requires few { chosen + length execs.now < 2 ^ 32 }
    requires rows { AreChosen m.now chosen (length execs.now) }
    requires execs { (nodes : List Node) × AreExecs (scope_of m.now) pool.old nodes execs.now }
    ensures units { (nodes : List Node) (p : PipeThings) → p.units ≡ units_of nodes chosen execs.now → AreExecs (scope_of m.now) pool.old nodes execs.now
        → AreUnits (scope_of m.now) pool.new p result }
    ensures step { Step pool.old pool.new (25 * length execs.now + 7) }
{
    let done = any_done(pool, execs, chosen);
    let value = gather_units(m, pool, execs, chosen, Output::Value);
    let next_pc = gather_units(m, pool, execs, chosen, Output::NextPc);
    let trap = gather_units(m, pool, execs, chosen, Output::Trap);
    let cause = gather_units(m, pool, execs, chosen, Output::Cause);
    let tval = gather_units(m, pool, execs, chosen, Output::Tval);
    let fence = gather_units(m, pool, execs, chosen, Output::Fence);
    UnitNets {
        done,
        value,
        next_pc,
        trap,
        cause,
        tval,
        fence,
    }
}
