ghost use Rattle.hw_module.specs.Checked.{DriversFit};
ghost use Rattle.plug_build.specs.Fits.{WorldFits};
ghost use Rattle.part_bench.specs.Whole.{AreIn};
ghost use Rattle.part_alone.specs.Built.{world_in};

use crate::build::Part;
use hw_expr::Net;
use part_bench::Bench;
use std::alloc::{AllocError, Global};

/// A part alone under test: its bench, the forward wires at the inputs of its services and the nets at their outputs, in the order of
/// the ports, and how much it made in each of its two calls.
#[derive(Drop)]
pub struct Stand {
    pub bench: Bench,
    pub ins: Vec<u32>,
    pub outs: Vec<Net>,
    pub made: (u32, u32),
    /// Fetch is under test: its outputs are registers, and its bus is that of instructions.
    pub fetches: bool,
}

/// The stand of a part with these inputs and outputs.
fn make_stand(alloc: Global, part: Part, ins: &[u32], outs: &[Net]) -> Result<Stand, AllocError>
    requires fits { DriversFit part.builder.design part.pool }
    requires nets { AreIn part.builder.design part.pool outs.now }
{
    let fetches = part.reg.fetch().is_some() && part.reg.execs().is_empty();
    let Part {
        pool,
        builder,
        made,
        ..
    } = part;
    match Bench::new(alloc, builder.into_module(), pool, outs) {
        Ok(bench) => Ok(Stand {
            bench,
            ins: Vec::from_slice(alloc, ins)?,
            outs: Vec::from_slice(alloc, outs)?,
            made,
            fetches,
        }),
        Err(_fault) => Err(AllocError),
    }
}

/// The stand of a part that offers Exec.
fn exec_stand(alloc: Global, part: Part) -> Result<Stand, AllocError>
    requires { WorldFits (world_in part) }
{
    if part.reg.execs().is_empty() {
        return Err(AllocError);
    }
    let p = part.reg.execs()[0].ports;
    let ins = [p.go, p.row, p.pc, p.word, p.a, p.b, p.clear];
    let nets = [p.done, p.value, p.next_pc, p.trap, p.cause, p.tval, p.fence];
    make_stand(alloc, part, &ins, &nets)
}

/// The stand of a part that offers Exec and System, the ports of Exec first.
fn system_stand(alloc: Global, part: Part) -> Result<Stand, AllocError>
    requires { WorldFits (world_in part) }
{
    let Some(s) = part.reg.system() else {
        return Err(AllocError);
    };
    if part.reg.execs().is_empty() {
        return Err(AllocError);
    }
    let p = part.reg.execs()[0].ports;
    let ins = [
        p.go, p.row, p.pc, p.word, p.a, p.b, p.clear, s.event, s.kind, s.pc, s.cause, s.tval,
    ];
    let nets = [
        p.done,
        p.value,
        p.next_pc,
        p.trap,
        p.cause,
        p.tval,
        p.fence,
        s.take_irq,
        s.irq_cause,
        s.base,
    ];
    make_stand(alloc, part, &ins, &nets)
}

/// The stand of a part that offers Decoder.
fn decoder_stand(alloc: Global, part: Part) -> Result<Stand, AllocError>
    requires { WorldFits (world_in part) }
{
    let Some(p) = part.reg.decoder() else {
        return Err(AllocError);
    };
    let nets = [p.legal, p.row, p.unit, p.uses_a, p.uses_b, p.writes];
    make_stand(alloc, part, &[p.word], &nets)
}

/// The stand of a part that offers RegFile.
fn regfile_stand(alloc: Global, part: Part) -> Result<Stand, AllocError>
    requires { WorldFits (world_in part) }
{
    let Some(p) = part.reg.regfile() else {
        return Err(AllocError);
    };
    let nets = [p.a, p.b];
    make_stand(alloc, part, &[p.ra, p.rb, p.we, p.wa, p.wd], &nets)
}

/// The stand of a part that offers Hazard. Behind its inputs stand those of the registers beside it.
fn hazard_stand(alloc: Global, part: Part) -> Result<Stand, AllocError>
    requires { WorldFits (world_in part) }
{
    let Some(p) = part.reg.hazard() else {
        return Err(AllocError);
    };
    let Some(regs) = part.reg.regfile() else {
        return Err(AllocError);
    };
    let (one, two, three) = (p.first, p.second, p.third);
    let ins = [
        one.writes,
        one.rd,
        one.ready,
        one.value,
        two.writes,
        two.rd,
        two.ready,
        two.value,
        three.writes,
        three.rd,
        three.ready,
        three.value,
        p.ra,
        p.rb,
        p.uses_a,
        p.uses_b,
        regs.ra,
        regs.rb,
        regs.we,
        regs.wa,
        regs.wd,
    ];
    let nets = [p.hold, p.a, p.b];
    make_stand(alloc, part, &ins, &nets)
}

/// The stand of a part that offers Fetch.
fn fetch_stand(alloc: Global, part: Part) -> Result<Stand, AllocError>
    requires { WorldFits (world_in part) }
{
    let Some(p) = part.reg.fetch() else {
        return Err(AllocError);
    };
    let nets = [p.valid, p.pc, p.word, p.error];
    make_stand(
        alloc,
        part,
        &[p.take, p.redirect, p.redirect_pc, p.fence],
        &nets,
    )
}

/// The stand of a part that offers Predict.
fn predict_stand(alloc: Global, part: Part) -> Result<Stand, AllocError>
    requires { WorldFits (world_in part) }
{
    let Some(p) = part.reg.predict() else {
        return Err(AllocError);
    };
    let nets = [p.next];
    make_stand(alloc, part, &[p.pc, p.word], &nets)
}

/// The stand of a part, by what it offers: a unit that does instructions also where it stands beside what fetches.
pub(crate) fn stand_of(alloc: Global, part: Part) -> Result<Stand, AllocError>
    requires { WorldFits (world_in part) }
{
    if part.reg.system().is_some() {
        return system_stand(alloc, part);
    }
    if part.reg.hazard().is_some() {
        return hazard_stand(alloc, part);
    }
    if !part.reg.execs().is_empty() {
        return exec_stand(alloc, part);
    }
    if part.reg.fetch().is_some() {
        return fetch_stand(alloc, part);
    }
    if part.reg.predict().is_some() {
        return predict_stand(alloc, part);
    }
    if part.reg.decoder().is_some() {
        return decoder_stand(alloc, part);
    }
    regfile_stand(alloc, part)
}
