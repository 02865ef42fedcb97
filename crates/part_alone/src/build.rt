ghost use Rattle.std.specs.Prelude.{◌≡◌, ◌≤◌, [], IfOk, IsTrue, OnOk, false, true};
ghost use Rattle.stage_map.specs.declared.config.PlugEntry.{PlugEntry};
ghost use Rattle.service_reg.specs.declared.service.Service.TheVariants as service;
ghost use Rattle.plug_build.specs.Fits.{WorldFits};
ghost use Rattle.plug_api.specs.Calls.{IsLawful, half_cost};
ghost use Rattle.plug_api.specs.Spec.{is_among};
ghost use Rattle.plug_kinds.specs.declared.kind.Kind.TheVariants as kind;
ghost use Rattle.plug_kinds.specs.Kinds.{spec_of};
ghost use Rattle.part_alone.specs.Built.{HasBuilt, IsAlone, IsBare, IsBeside, MayBuild, world_in};

use crate::plan::{plan_alone, plan_of_rows, plan_of_two};
use crate::stands::{Stand, stand_of};
use hw_module::Module;
use hw_pool::Pool;
use plug_api::{Plan, Plugin};
use plug_build::Builder;
use service_ports::Registry;
use stage_map::PlugEntry;
use std::alloc::{AllocError, Global};

/// What was built: nodes, module and services, and how much (nodes, things and drivers) was made last in each of the two calls.
#[derive(Drop)]
pub struct Part {
    pub pool: Pool,
    pub builder: Builder,
    pub reg: Registry,
    pub made: (u32, u32),
}

/// The room of the pool, and that of the module.
const ROOM: u32 = 16384;

/// How much a plug-in may make in one call.
const MOST: u32 = 2080;

/// How many nodes, things and drivers there are.
fn count(part: &Part) -> u32 {
    let things = ROOM.saturating_sub(part.builder.room());
    part.pool.live().saturating_add(things)
}

/// Whether a plug-in may make so much in a call.
fn has_room(part: &Part) -> bool
    ensures { IsTrue result → (2080 ≤ part.now.builder.design.room) × (2080 ≤ part.now.pool.spare) }
{
    part.builder.room() >= MOST && part.pool.spare() >= MOST
}

/// A module in which nothing is built, for entry 0.
fn nothing(alloc: Global) -> Result<Part, AllocError>
    ensures bare { IfOk result (λ p. IsBare (world_in p)) }
    ensures entry { IfOk result (λ p. p.builder.entry ≡ 0) }
    ensures room { IfOk result (λ p. 2 ≤ p.reg.room) }
{
    let mut pool = Pool::new(alloc);
    if pool.reserve(ROOM).is_err() {
        return Err(AllocError);
    }
    let builder = Builder::new(Module::with_room(alloc, ROOM)?, 0);
    let reg = Registry::with_room(alloc, 2)?;
    Ok(Part {
        pool,
        builder,
        reg,
        made: (0, 0),
    })
}

/// Has a plug-in build as the builder's entry, by its two calls.
fn build_in<P: Plugin>(plug: &P, plan: &Plan, part: &mut Part) -> Result<(), AllocError>
    requires { MayBuild (P.spec_now plug.now) plan.now part.old.builder.entry (world_in part.old) }
    ensures { OnOk result (HasBuilt (P.spec_now plug.now) part.old.builder.entry (world_in part.old) (world_in part.new)) }
{
    let before = count(part);
    if !has_room(part) {
        return Err(AllocError);
    }
    plug.early(&mut part.builder, &mut part.pool, plan, &mut part.reg);
    let early = count(part);
    if !has_room(part) {
        return Err(AllocError);
    }
    plug.late(&mut part.builder, &mut part.pool, plan, &part.reg);
    let late = count(part);
    part.made = (early.saturating_sub(before), late.saturating_sub(early));
    Ok(())
}

/// What a plug-in that needs no other builds by this plan.
fn built<P: Plugin>(alloc: Global, plug: &P, plan: &Plan) -> Result<Part, AllocError>
    requires lawful { IsLawful (P.spec_now plug.now) plan.now 0 }
    requires few { half_cost (P.spec_now plug.now) plan.now ≤ 2080 }
    requires needs { (P.spec_now plug.now).needs ≡ [] }
    requires predict { is_among (P.spec_now plug.now).offers service.Fetch ≡ true → is_among (P.spec_now plug.now).offers service.Predict ≡ false }
    ensures fits { IfOk result (λ p. WorldFits (world_in p)) }
{
    let mut part = nothing(alloc)?;
    build_in(plug, plan, &mut part)?;
    Ok(part)
}

/// The same by a plan of its claims alone.
fn built_alone<P: Plugin>(alloc: Global, plug: &P) -> Result<Part, AllocError>
    requires { IsAlone (P.spec_now plug.now) }
    ensures fits { IfOk result (λ p. WorldFits (world_in p)) }
{
    let plan = plan_alone(alloc, plug.spec())?;
    built(alloc, plug, &plan)
}

/// What a plug-in builds beside another that offers what it needs.
fn built_beside<P: Plugin, Q: Plugin>(
    alloc: Global,
    other: &P,
    plug: &Q,
) -> Result<Part, AllocError>
    requires alone { IsAlone (P.spec_now other.now) }
    requires claims { (P.spec_now other.now).rows ≡ [] }
    requires beside { IsBeside (P.spec_now other.now) (Q.spec_now plug.now) }
    ensures fits { IfOk result (λ p. WorldFits (world_in p)) }
{
    let plan = plan_of_two(alloc, plug.spec())?;
    let mut part = nothing(alloc)?;
    build_in(other, &plan, &mut part)?;
    part.builder.set_entry(1);
    build_in(plug, &plan, &mut part)?;
    Ok(part)
}

/// Has a plug-in take an entry.
fn take<P: Plugin>(alloc: Global, plug: &mut P, entry: &PlugEntry) -> Result<(), AllocError>
    ensures { OnOk result (P.spec_now plug.new ≡ P.spec_taken plug.old entry.now) }
{
    match plug.configure(alloc, entry) {
        Ok(()) => Ok(()),
        Err(_fault) => Err(AllocError),
    }
}

/// The part of a plug-in that takes this entry and needs no other.
///
/// # Errors
/// `AllocError` where the entry or memory was refused, or the room of the module is used up.
pub fn stand_alone<P: Plugin>(
    alloc: Global,
    plug: P,
    entry: &PlugEntry,
) -> Result<Stand, AllocError>
    requires { (e : PlugEntry) → IsAlone (P.spec_taken plug e) }
{
    let mut plug = plug;
    take(alloc, &mut plug, entry)?;
    stand_of(alloc, built_alone(alloc, &plug)?)
}

/// The part of a plug-in that takes this entry, beside another that offers what it needs.
///
/// # Errors
/// `AllocError` where the entry or memory was refused, or the room of the module is used up.
pub fn stand_beside<P: Plugin, Q: Plugin>(
    alloc: Global,
    other: &P,
    plug: Q,
    entry: &PlugEntry,
) -> Result<Stand, AllocError>
    requires alone { IsAlone (P.spec_now other.now) }
    requires claims { (P.spec_now other.now).rows ≡ [] }
    requires beside { (e : PlugEntry) → IsBeside (P.spec_now other.now) (Q.spec_taken plug e) }
{
    let mut plug = plug;
    take(alloc, &mut plug, entry)?;
    stand_of(alloc, built_beside(alloc, other, &plug)?)
}

/// The part of a decoder of those rows of the table of which this number has the bit, which are of entries 1, 2 and 3 by turns.
///
/// # Errors
/// `AllocError` where memory was refused, or the room of the module is used up.
pub fn stand_decoder<P: Plugin>(alloc: Global, plug: &P, chosen: u64) -> Result<Stand, AllocError>
    requires { P.spec_now plug.now ≡ spec_of kind.Decoder [] }
{
    let plan = plan_of_rows(alloc, chosen)?;
    stand_of(alloc, built(alloc, plug, &plan)?)
}
