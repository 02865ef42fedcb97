ghost use Rattle.std.specs.Prelude.{◌≡◌, ◌≤◌};
ghost use Rattle.hw_pool.specs.Scope.{Scope};
ghost use Rattle.hw_gates.specs.Places.{Step};
ghost use Rattle.pipe_steps.specs.Things.{PipeThings};
ghost use Rattle.pipe_steps.specs.Values.{stopped_next, told_kind_in};
ghost use Rattle.pipe_build.specs.Bears.{Bears};
ghost use Rattle.pipe_build.specs.DrivenBy.{DriveEvent, DriveFront, DriveSlot, DriveState, DriveTold, DriveWires};
ghost use Rattle.pipe_build.specs.Known.{AreMids, IsKnown};

use crate::nets::{EventNets, FrontNets, Known, Mids, SlotNets, StateNets, ToldNets, WireNets};
use hw_expr::Net;
use hw_gates::{and, lit, mux, slice};
use hw_pool::Pool;
use pipe_nets::{
    ends, enters, flush_after, fresh_word, fresh_writes, interrupt, kill, kind, kind_alone,
    pc_after, retires, runs, started_after, stopped_after, sys_cause, sys_value, tells, told_cause,
    told_rd, told_value, told_word, traps, valid_after, writes,
};

/// What drives the pipeline's own forward wires.
pub(crate) fn wire_drivers(pool: &mut Pool, k: Known, m: Mids) -> WireNets
    requires spare { 25 ≤ pool.old.spare }
    requires known { (s : Scope) × (p : PipeThings) × IsKnown s pool.old p k }
    requires mids { (s : Scope) × (p : PipeThings) × AreMids s pool.old p m }
    ensures drivers { (s : Scope) (p : PipeThings) → IsKnown s pool.old p k → AreMids s pool.old p m → DriveWires s pool.new p result }
    ensures step { Step pool.old pool.new 25 }
{
    let regs = k.regs;
    let slot = regs.slot;
    let wires = k.wires;
    let irq_now = k.system.take_irq;
    let kill = kill(
        pool,
        regs.flush,
        regs.valid,
        slot.pc,
        k.fetch.valid,
        k.fetch.pc,
        regs.apc,
    );
    let irq = interrupt(pool, m.asked, wires.kill);
    let run = runs(
        pool,
        regs.valid,
        regs.started,
        regs.flush,
        slot.pc,
        regs.apc,
        irq_now,
    );
    let ends = ends(pool, wires.run, m.through);
    let retires = retires(pool, wires.ends, slot.except, k.units.trap);
    let traps = traps(pool, wires.ends, m.faulty);
    let writes = writes(pool, wires.ends, m.wins);
    let enters = enters(pool, regs.valid, m.through);
    WireNets {
        kill,
        irq,
        run,
        ends,
        retires,
        traps,
        writes,
        enters,
    }
}

/// Whether the core takes nothing more in the next cycle; with System it never stops.
fn stopped_driver(pool: &mut Pool, k: Known) -> Net
    requires spare { 1 ≤ pool.old.spare }
    requires known { (s : Scope) × (p : PipeThings) × IsKnown s pool.old p k }
    ensures bears { (s : Scope) (p : PipeThings) → IsKnown s pool.old p k → Bears s pool.new 1 6 (λ env. stopped_next p env) result }
    ensures step { Step pool.old pool.new 1 }
{
    if k.system.there {
        lit(pool, 1, 0)
    } else {
        stopped_after(pool, k.regs.stopped, k.wires.traps)
    }
}

/// What the first registers are to take.
pub(crate) fn state_drivers(pool: &mut Pool, k: Known, m: Mids) -> StateNets
    requires spare { 13 ≤ pool.old.spare }
    requires known { (s : Scope) × (p : PipeThings) × IsKnown s pool.old p k }
    requires mids { (s : Scope) × (p : PipeThings) × AreMids s pool.old p m }
    ensures drivers { (s : Scope) (p : PipeThings) → IsKnown s pool.old p k → AreMids s pool.old p m → DriveState s pool.new p result }
    ensures step { Step pool.old pool.new 13 }
{
    let wires = k.wires;
    let stopped = stopped_driver(pool, k);
    let apc = pc_after(
        pool,
        m.event,
        m.asked,
        m.faulty,
        k.system.base,
        k.units.next_pc,
        k.regs.apc,
    );
    let flush = flush_after(pool, wires.irq, wires.traps, m.fences);
    let started = started_after(pool, wires.run, wires.ends);
    let valid = valid_after(pool, wires.kill, wires.irq, m.takes, wires.enters);
    StateNets {
        apc,
        flush,
        started,
        stopped,
        valid,
    }
}

/// What the registers of the item in front are to take.
pub(crate) fn slot_drivers(pool: &mut Pool, k: Known, m: Mids) -> SlotNets
    requires spare { 14 ≤ pool.old.spare }
    requires known { (s : Scope) × (p : PipeThings) × IsKnown s pool.old p k }
    requires mids { (s : Scope) × (p : PipeThings) × AreMids s pool.old p m }
    ensures drivers { (s : Scope) (p : PipeThings) → IsKnown s pool.old p k → AreMids s pool.old p m → DriveSlot s pool.new p result }
    ensures step { Step pool.old pool.new 14 }
{
    let kept = k.regs.slot;
    let fetch = k.fetch;
    let decoder = k.decoder;
    let hazard = k.hazard;
    let enters = k.wires.enters;
    let new_word = fresh_word(pool, fetch.error, fetch.word);
    let new_writes = fresh_writes(pool, decoder.writes, decoder.legal, fetch.error);
    let pc = mux(pool, enters, fetch.pc, kept.pc);
    let word = mux(pool, enters, new_word, kept.word);
    let error = mux(pool, enters, fetch.error, kept.error);
    let legal = mux(pool, enters, decoder.legal, kept.legal);
    let row = mux(pool, enters, decoder.row, kept.row);
    let except = mux(pool, enters, m.fresh_except, kept.except);
    let writes = mux(pool, enters, new_writes, kept.writes);
    let left = mux(pool, enters, hazard.a, kept.a);
    let right = mux(pool, enters, hazard.b, kept.b);
    SlotNets {
        pc,
        word,
        error,
        legal,
        row,
        except,
        writes,
        a: left,
        b: right,
    }
}

/// The kind of an event on the core's ports.
fn kind_driver(pool: &mut Pool, k: Known, m: Mids) -> Net
    requires spare { 3 ≤ pool.old.spare }
    requires mids { (s : Scope) × (p : PipeThings) × AreMids s pool.old p m }
    ensures bears { (s : Scope) (p : PipeThings) → IsKnown s pool.old p k → AreMids s pool.old p m → Bears s pool.new 2 4 (λ env. told_kind_in p env) result }
    ensures step { Step pool.old pool.new 3 }
{
    if k.system.there {
        kind(pool, m.asked, m.faulty)
    } else {
        kind_alone(pool, m.asked, m.faulty)
    }
}

/// What an event tells on the core's ports.
pub(crate) fn told_drivers(pool: &mut Pool, k: Known, m: Mids) -> ToldNets
    requires spare { 15 ≤ pool.old.spare }
    requires known { (s : Scope) × (p : PipeThings) × IsKnown s pool.old p k }
    requires mids { (s : Scope) × (p : PipeThings) × AreMids s pool.old p m }
    ensures drivers { (s : Scope) (p : PipeThings) → IsKnown s pool.old p k → AreMids s pool.old p m → DriveTold s pool.new p result }
    ensures step { Step pool.old pool.new 15 }
{
    let front = k.regs.slot.word;
    let kind = kind_driver(pool, k, m);
    let word = told_word(pool, m.asked, front);
    let tells = tells(pool, m.wins, m.asked);
    let rd = told_rd(pool, tells, front);
    let value = told_value(pool, tells, k.units.value);
    let cause = told_cause(pool, m.asked, k.system.irq_cause, m.faulty, m.cause);
    ToldNets {
        kind,
        word,
        rd,
        value,
        cause,
    }
}

/// What System takes of an event.
pub(crate) fn event_drivers(pool: &mut Pool, k: Known, m: Mids) -> EventNets
    requires spare { 6 ≤ pool.old.spare }
    requires known { (s : Scope) × (p : PipeThings) × IsKnown s pool.old p k }
    requires mids { (s : Scope) × (p : PipeThings) × AreMids s pool.old p m }
    ensures drivers { (s : Scope) (p : PipeThings) → IsKnown s pool.old p k → AreMids s pool.old p m → DriveEvent s pool.new p result }
    ensures step { Step pool.old pool.new 6 }
{
    let kind = kind(pool, m.asked, m.faulty);
    let cause = sys_cause(pool, m.asked, k.system.irq_cause, m.cause);
    let tval = sys_value(pool, m.asked, m.tval);
    EventNets { kind, cause, tval }
}

/// What is read from the words that are offered and in front.
pub(crate) fn front_drivers(pool: &mut Pool, k: Known) -> FrontNets
    requires spare { 5 ≤ pool.old.spare }
    requires known { (s : Scope) × (p : PipeThings) × IsKnown s pool.old p k }
    ensures drivers { (s : Scope) (p : PipeThings) → IsKnown s pool.old p k → DriveFront s pool.new p result }
    ensures step { Step pool.old pool.new 5 }
{
    let fence = and(pool, k.wires.kill, k.regs.flush_fence);
    let left = slice(pool, k.fetch.word, 19, 15);
    let right = slice(pool, k.fetch.word, 24, 20);
    let rd = slice(pool, k.regs.slot.word, 11, 7);
    let writes = and(pool, k.regs.valid, k.regs.slot.writes);
    FrontNets {
        fence,
        ra: left,
        rb: right,
        rd,
        writes,
    }
}
