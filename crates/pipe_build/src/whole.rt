ghost use Rattle.std.specs.Prelude.{◌≡◌, ℕ, ◌+◌, ◌*◌, ◌-◌, ◌<◌, ◌≤◌, ◌^◌, [], List, None, Some, length};
ghost use Rattle.hw_pool.specs.declared.node.Node.{Node};
ghost use Rattle.hw_pool.specs.Scope.{Scope};
ghost use Rattle.hw_gates.specs.Places.{Step};
ghost use Rattle.hw_module.specs.Rows.{wire_at};
ghost use Rattle.hw_module.specs.Scope.{scope_of};
ghost use Rattle.plug_law.specs.Pipeline.{Shape};
ghost use Rattle.part_laws.specs.Joined.{Services};
ghost use Rattle.pipe_steps.specs.Numbers.{own_from, things_from, wires_from};
ghost use Rattle.pipe_steps.specs.Things.{PipeThings};
ghost use Rattle.pipe_build.specs.Known.{AreMids, AreUnits, IsDecoder, IsFetch, IsHazard, IsKnown, IsSystem};
ghost use Rattle.pipe_build.specs.Late.{HasTail};
ghost use Rattle.pipe_build.specs.Made.{HasRegs, HasWires, IsWire};
ghost use Rattle.pipe_build.specs.UnitOuts.{AreChosen, AreExecs};
ghost use Rattle.pipe_build.specs.AllNets.{AreNets, AreOffers, DriveEnds, SystemIs};

use crate::drivers::{
    event_drivers, front_drivers, slot_drivers, state_drivers, told_drivers, wire_drivers,
};
use crate::mids::mid_nets;
use crate::nets::{EndNets, FrontNets, Known, Offers, PipeNets, SystemNets, TailNets};
use crate::read::{read_wire, reg_nets, wire_nets};
use crate::tail::tail_nets;
use crate::units::unit_nets;
use hw_gates::lit;
use hw_module::Module;
use hw_pool::Pool;
use service_ports::{ExecOffer, SystemPorts};

/// The outputs of System; 0 where there is none.
fn system_nets(pool: &mut Pool, system: Option<SystemPorts>) -> SystemNets
    requires spare { 2 ≤ pool.old.spare }
    ensures system { (s : Scope) (p : PipeThings) → SystemIs s pool.old p system → IsSystem s pool.new p result }
    ensures step { Step pool.old pool.new 2 }
{
    match system {
        Some(ports) => SystemNets {
            there: true,
            take_irq: ports.take_irq,
            irq_cause: ports.irq_cause,
            base: ports.base,
        },
        None => {
            let bit = lit(pool, 1, 0);
            let word = lit(pool, 32, 0);
            SystemNets {
                there: false,
                take_irq: bit,
                irq_cause: word,
                base: word,
            }
        }
    }
}

/// All that the pipeline reads.
fn known_nets(
    m: &Module,
    pool: &mut Pool,
    wire: u32,
    reg: u32,
    o: Offers,
    execs: &[ExecOffer],
) -> Known
    requires spare { 25 * length execs.now + 32 ≤ pool.old.spare }
    requires few { reg + 15 + length execs.now < 2 ^ 32 }
    requires few_wires { wire + 8 < 2 ^ 32 }
    requires regs { HasRegs m.now (own_from reg [] 0) }
    requires wires { HasWires m.now (wires_from wire) }
    requires chosen { AreChosen m.now (reg + 15) (length execs.now) }
    requires execs { (nodes : List Node) × AreExecs (scope_of m.now) pool.old nodes execs.now }
    ensures known { (nodes : List Node) (x : Services) (sh : Shape) → AreOffers (scope_of m.now) pool.old (things_from nodes wire reg execs.now x sh) o
        → AreExecs (scope_of m.now) pool.old nodes execs.now → IsKnown (scope_of m.now) pool.new (things_from nodes wire reg execs.now x sh) result }
    ensures fetch { result.fetch ≡ o.fetch }
    ensures decoder { result.decoder ≡ o.decoder }
    ensures hazard { result.hazard ≡ o.hazard }
    ensures step { Step pool.old pool.new (25 * length execs.now + 32) }
{
    let regs = reg_nets(m, pool, reg);
    let wires = wire_nets(m, pool, wire);
    let units = unit_nets(m, pool, execs, reg + 15);
    let system = system_nets(pool, o.system);
    Known {
        regs,
        wires,
        fetch: o.fetch,
        decoder: o.decoder,
        hazard: o.hazard,
        system,
        units,
    }
}

/// The number 0, and the forward wire `take` of Fetch.
fn end_nets(m: &Module, pool: &mut Pool, take: u32) -> EndNets
    requires spare { 4 ≤ pool.old.spare }
    requires take { IsWire m.now take 8 }
    ensures ends { (p : PipeThings) → DriveEnds (scope_of m.now) pool.new p take result }
    ensures step { Step pool.old pool.new 4 }
{
    let take = read_wire(m, pool, take);
    let bit = lit(pool, 1, 0);
    let mask = lit(pool, 4, 0);
    let word = lit(pool, 32, 0);
    EndNets {
        take,
        bit,
        mask,
        word,
    }
}

/// All nets of the pipeline; its forward wires are numbered from `wire` on and its registers from `reg` on.
pub(crate) fn pipe_nets(
    m: &Module,
    pool: &mut Pool,
    wire: u32,
    reg: u32,
    o: Offers,
    execs: &[ExecOffer],
    places: u32,
) -> PipeNets
    requires spare { 25 * length execs.now + 164 ≤ pool.old.spare }
    requires few { reg + 15 + length execs.now + 3 * places < 2 ^ 32 }
    requires few_wires { wire + 8 < 2 ^ 32 }
    requires most { places ≤ 2 }
    requires regs { HasRegs m.now (own_from reg [] 0) }
    requires wires { HasWires m.now (wires_from wire) }
    requires chosen { AreChosen m.now (reg + 15) (length execs.now) }
    requires tail { HasTail m.now (reg + 15 + length execs.now) places }
    requires take { IsWire m.now o.fetch.take 8 }
    requires known { (nodes : List Node) × (x : Services) × (sh : Shape) × AreOffers (scope_of m.now) pool.old (things_from nodes wire reg execs.now x sh) o
        × AreExecs (scope_of m.now) pool.old nodes execs.now }
    ensures nets { (nodes : List Node) (x : Services) (sh : Shape) → sh.stages - 2 ≡ places → AreOffers (scope_of m.now) pool.old (things_from nodes wire reg execs.now x sh) o
        → AreExecs (scope_of m.now) pool.old nodes execs.now → AreNets (scope_of m.now) pool.new (things_from nodes wire reg execs.now x sh) o.fetch.take result }
    ensures fetch { result.known.fetch ≡ o.fetch }
    ensures decoder { result.known.decoder ≡ o.decoder }
    ensures step { Step pool.old pool.new (25 * length execs.now + 164) }
{
    let known = known_nets(m, pool, wire, reg, o, execs);
    let mids = mid_nets(pool, known);
    let wires = wire_drivers(pool, known, mids);
    let state = state_drivers(pool, known, mids);
    let slot = slot_drivers(pool, known, mids);
    let told = told_drivers(pool, known, mids);
    let event = event_drivers(pool, known, mids);
    let front = front_drivers(pool, known);
    let first = reg + 15 + execs.len() as u32;
    let tail = tail_nets(m, pool, known, front, first, places);
    let ends = end_nets(m, pool, o.fetch.take);
    PipeNets {
        known,
        mids,
        wires,
        state,
        slot,
        told,
        event,
        front,
        tail,
        ends,
    }
}
