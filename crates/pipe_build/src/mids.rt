ghost use Rattle.std.specs.Prelude.{◌≡◌, ◌≤◌};
ghost use Rattle.hw_pool.specs.Scope.{Scope};
ghost use Rattle.hw_gates.specs.Places.{Step};
ghost use Rattle.pipe_steps.specs.Things.{PipeThings};
ghost use Rattle.pipe_build.specs.Known.{AreMids, IsKnown};

use crate::nets::{Known, Mids};
use hw_pool::Pool;
use pipe_nets::{
    asks, event, except_cause, except_value, faulty, fences, fresh_except, of_trap, takes, through,
    wins,
};

/// What several drivers stand on.
pub(crate) fn mid_nets(pool: &mut Pool, k: Known) -> Mids
    requires spare { 36 ≤ pool.old.spare }
    requires known { (s : Scope) × (p : PipeThings) × IsKnown s pool.old p k }
    ensures mids { (s : Scope) (p : PipeThings) → IsKnown s pool.old p k → AreMids s pool.new p result }
    ensures step { Step pool.old pool.new 36 }
{
    let slot = k.regs.slot;
    let wires = k.wires;
    let asked = asks(pool, k.system.take_irq, k.regs.started);
    let through = through(pool, slot.except, k.units.done);
    let faulty = faulty(pool, slot.except, k.units.trap);
    let wins = wins(pool, slot.writes, k.units.trap);
    let own_cause = except_cause(pool, slot.error, slot.legal, slot.word);
    let cause = of_trap(pool, slot.except, own_cause, k.units.cause);
    let own_tval = except_value(pool, slot.error, slot.legal, slot.pc, slot.word);
    let tval = of_trap(pool, slot.except, own_tval, k.units.tval);
    let event = event(pool, wires.ends, wires.irq);
    let fences = fences(pool, wires.retires, k.units.fence);
    let fresh_except = fresh_except(pool, k.fetch.error, k.decoder.legal, k.decoder.row);
    let hold = k.hazard.hold;
    let takes = takes(
        pool,
        k.fetch.valid,
        wires.enters,
        hold,
        wires.kill,
        k.regs.stopped,
    );
    Mids {
        asked,
        through,
        faulty,
        wins,
        cause,
        tval,
        event,
        fences,
        fresh_except,
        takes,
    }
}
