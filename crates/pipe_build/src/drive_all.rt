ghost use Rattle.std.specs.Prelude.{◌+◌, ◌<◌, ◌≤◌, ◌^◌};
ghost use Rattle.hw_module.specs.Checked.{DriversFit};
ghost use Rattle.plug_build.specs.Fits.{AreApart};
ghost use Rattle.pipe_drive.specs.Drives.{CanDriveAll, CanMoveAll, CanShowAll, DrivesOnly, HasDrivers, HasNexts, HasOuts, MovesOnly, ShowsOnly, targets};
ghost use Rattle.pipe_build.specs.Rest.{CanRest, HasRest, RestOnly, bus_drives, reg_list, system_list, told_drives, wire_drives};

use crate::nets::{Offers, PipeNets};
use hw_module::Module;
use hw_pool::Pool;
use pipe_drive::{drive_outs, drive_wires, move_regs};
use service_ports::SystemPorts;

/// Drives the pipeline's own forward wires, which are numbered from `wire` on, and the inputs of Fetch, Decoder, RegFile and Hazard.
fn drive_inputs(m: &mut Module, pool: &Pool, wire: u32, o: Offers, n: PipeNets)
    requires room { 34 ≤ m.old.room }
    requires few { wire + 8 < 2 ^ 32 }
    requires apart { AreApart (targets (wire_drives wire o n)) }
    requires fit { CanDriveAll m.old pool.now (wire_drives wire o n) }
    ensures driven { HasDrivers m.new (wire_drives wire o n) }
    ensures only { DrivesOnly (targets (wire_drives wire o n)) m.old m.new 34 }
    ensures drivers { DriversFit m.old pool.now → DriversFit m.new pool.now }
{
    drive_wires(
        m,
        pool,
        &[
            (wire, n.wires.kill),
            (wire + 1, n.wires.irq),
            (wire + 2, n.wires.run),
            (wire + 3, n.wires.ends),
            (wire + 4, n.wires.retires),
            (wire + 5, n.wires.traps),
            (wire + 6, n.wires.writes),
            (wire + 7, n.wires.enters),
            (o.fetch.take, n.mids.takes),
            (o.fetch.redirect, n.known.wires.kill),
            (o.fetch.redirect_pc, n.known.regs.apc),
            (o.fetch.fence, n.front.fence),
            (o.decoder.word, n.known.fetch.word),
            (o.regfile.ra, n.front.ra),
            (o.regfile.rb, n.front.rb),
            (o.regfile.we, n.tail.enable),
            (o.regfile.wa, n.tail.leaving.rd),
            (o.regfile.wd, n.tail.leaving.value),
            (o.hazard.first.writes, n.front.writes),
            (o.hazard.first.rd, n.front.rd),
            (o.hazard.first.ready, n.known.units.done),
            (o.hazard.first.value, n.known.units.value),
            (o.hazard.second.writes, n.tail.second.writes),
            (o.hazard.second.rd, n.tail.second.rd),
            (o.hazard.second.ready, n.tail.second.ready),
            (o.hazard.second.value, n.tail.second.value),
            (o.hazard.third.writes, n.tail.third.writes),
            (o.hazard.third.rd, n.tail.third.rd),
            (o.hazard.third.ready, n.tail.third.ready),
            (o.hazard.third.value, n.tail.third.value),
            (o.hazard.ra, n.front.ra),
            (o.hazard.rb, n.front.rb),
            (o.hazard.uses_a, n.known.decoder.uses_a),
            (o.hazard.uses_b, n.known.decoder.uses_b),
        ],
    );
}

/// Drives the inputs of System, where there is one.
fn drive_system(m: &mut Module, pool: &Pool, system: Option<SystemPorts>, n: PipeNets)
    requires room { 5 ≤ m.old.room }
    requires apart { AreApart (targets (system_list system n)) }
    requires fit { CanDriveAll m.old pool.now (system_list system n) }
    ensures driven { HasDrivers m.new (system_list system n) }
    ensures only { DrivesOnly (targets (system_list system n)) m.old m.new 5 }
    ensures drivers { DriversFit m.old pool.now → DriversFit m.new pool.now }
{
    match system {
        None => {}
        Some(p) => drive_wires(
            m,
            pool,
            &[
                (p.event, n.mids.event),
                (p.kind, n.event.kind),
                (p.pc, n.known.regs.apc),
                (p.cause, n.event.cause),
                (p.tval, n.event.tval),
            ],
        ),
    }
}

/// Gives the pipeline's registers, which are numbered from `reg` on, their next values: all but those of units and of the tail.
fn move_own(m: &mut Module, pool: &Pool, reg: u32, n: PipeNets)
    requires room { 15 ≤ m.old.room }
    requires few { reg + 15 < 2 ^ 32 }
    requires fit { CanMoveAll m.old pool.now reg (reg_list n) }
    ensures driven { HasNexts m.new reg (reg_list n) }
    ensures only { MovesOnly reg m.old m.new 15 }
    ensures drivers { DriversFit m.old pool.now → DriversFit m.new pool.now }
{
    move_regs(
        m,
        pool,
        reg,
        &[
            n.state.apc,
            n.state.flush,
            n.mids.fences,
            n.state.started,
            n.state.stopped,
            n.state.valid,
            n.slot.pc,
            n.slot.word,
            n.slot.error,
            n.slot.legal,
            n.slot.row,
            n.slot.except,
            n.slot.writes,
            n.slot.a,
            n.slot.b,
        ],
    );
}

/// Drives the outputs of the core that tell events and what Fetch offers.
fn drive_told(m: &mut Module, pool: &Pool, n: PipeNets)
    requires room { 10 ≤ m.old.room }
    requires fit { CanShowAll m.old pool.now (told_drives n) }
    ensures driven { HasOuts m.new (told_drives n) }
    ensures only { ShowsOnly (targets (told_drives n)) m.old m.new 10 }
    ensures drivers { DriversFit m.old pool.now → DriversFit m.new pool.now }
{
    drive_outs(
        m,
        pool,
        &[
            (20, n.mids.event),
            (21, n.told.kind),
            (22, n.known.regs.apc),
            (23, n.told.word),
            (24, n.told.rd),
            (25, n.told.value),
            (26, n.told.cause),
            (27, n.known.fetch.valid),
            (28, n.ends.take),
            (29, n.known.fetch.pc),
        ],
    );
}

/// Drives the command of the data bus with 0, where nothing offers DataBus.
fn drive_bus(m: &mut Module, pool: &Pool, has_bus: bool, n: PipeNets)
    requires room { 5 ≤ m.old.room }
    requires fit { CanShowAll m.old pool.now (bus_drives has_bus n) }
    ensures driven { HasOuts m.new (bus_drives has_bus n) }
    ensures only { ShowsOnly (targets (bus_drives has_bus n)) m.old m.new 5 }
    ensures drivers { DriversFit m.old pool.now → DriversFit m.new pool.now }
{
    if has_bus {
        return;
    }
    drive_outs(
        m,
        pool,
        &[
            (8, n.ends.bit),
            (10, n.ends.bit),
            (11, n.ends.word),
            (12, n.ends.word),
            (13, n.ends.mask),
        ],
    );
}

/// Drives all that there is once: the pipeline's forward wires and registers, which are numbered from `wire` and from `reg` on, the
/// inputs of all services but Exec, and the outputs of the core.
pub(crate) fn drive_rest(
    m: &mut Module,
    pool: &Pool,
    wire: u32,
    reg: u32,
    o: Offers,
    has_bus: bool,
    n: PipeNets,
)
    requires room { 69 ≤ m.old.room }
    requires few_wires { wire + 8 < 2 ^ 32 }
    requires few { reg + 15 < 2 ^ 32 }
    requires fit { CanRest m.old pool.now wire reg o has_bus n }
    ensures driven { HasRest m.new wire reg o has_bus n }
    ensures only { RestOnly wire reg o has_bus n m.old m.new }
    ensures drivers { DriversFit m.old pool.now → DriversFit m.new pool.now }
{
    drive_inputs(m, pool, wire, o, n);
    drive_system(m, pool, o.system, n);
    move_own(m, pool, reg, n);
    drive_told(m, pool, n);
    drive_bus(m, pool, has_bus, n);
}
