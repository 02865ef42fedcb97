ghost use Rattle.std.specs.Prelude.{◌≡◌, ℕ, ◌+◌, ◌<◌, ◌≤◌, length, get_or};
ghost use Rattle.hw_module.specs.declared.rows.Owner.TheVariants.{Entry};
ghost use Rattle.service_ports.specs.Registry.{OffersBy};
ghost use Rattle.plug_build.specs.World.{Builds, early_rights, late_rights, world_of, part_in};
ghost use Rattle.plug_build.specs.Fits.{WorldFits};
ghost use Rattle.plug_build.specs.Done.{AreOpen, IsDone, OwnsNothing};
ghost use Rattle.plug_part.specs.Part.{Part};
ghost use Rattle.plug_part.specs.Meets.{MeetsLaws};
ghost use Rattle.plug_api.specs.Calls.{AreOutsOpen, AreThere, AreUnoffered, IsLawful, IsPredictOpen, OffersItsOwn, half_cost, takes_of};
ghost use Rattle.plug_join.specs.Joined.{EarlySoFar, IsBuildable, IsJoined, LateSoFar, box_of, pipe_share};

use hw_pool::Pool;
use plug_api::{Plan, Plugin};
use plug_build::Builder;
use service_ports::Registry;

/// One box builds.
fn early_of(p: &Box<dyn Plugin>, b: &mut Builder, pool: &mut Pool, plan: &Plan, reg: &mut Registry)
    requires lawful { IsLawful (spec_now p.now) plan.now b.old.entry }
    requires fits { WorldFits (world_of pool.old b.old reg.old) }
    requires nothing { OwnsNothing b.old.entry (world_of pool.old b.old reg.old) }
    requires unoffered { AreUnoffered (spec_now p.now) reg.old }
    requires outs { AreOutsOpen (spec_now p.now) b.old.design }
    requires room { half_cost (spec_now p.now) plan.now ≤ b.old.design.room }
    requires spare { half_cost (spec_now p.now) plan.now ≤ pool.old.spare }
    requires offer { 1 ≤ reg.old.room }
    ensures entry { b.new.entry ≡ b.old.entry }
    ensures fits { WorldFits (world_of pool.new b.new reg.new) }
    ensures adds { Builds (Entry b.old.entry) (early_rights reg.new b.old.entry) (half_cost (spec_now p.now) plan.now) (world_of pool.old b.old reg.old) (world_of pool.new b.new reg.new) }
    ensures offers { OffersBy b.old.entry reg.old reg.new }
    ensures offered { OffersItsOwn (spec_now p.now) b.old.entry reg.new }
    ensures offer { reg.old.room ≤ reg.new.room + 1 }
    ensures open { AreOpen b.old.entry (world_of pool.new b.new reg.new) }
    ensures begun { begun p.now plan.now (part_in (takes_of (spec_now p.now)) b.old.entry (world_of pool.new b.new reg.new)) }
{
    p.early(b, pool, plan, reg);
}

/// The box of an entry builds.
fn early_entry(
    plugs: &Vec<Box<dyn Plugin>>,
    entry: u32,
    b: &mut Builder,
    pool: &mut Pool,
    plan: &Plan,
    reg: &mut Registry,
)
    requires entry { entry < length plan.now.picks }
    requires picked { get_or plan.now.picks entry 0 < length plugs.now.items }
    requires lawful { (d : _) → IsLawful (spec_now (box_of plugs.now.items plan.now d entry)) plan.now entry }
    requires fits { WorldFits (world_of pool.old b.old reg.old) }
    requires nothing { OwnsNothing entry (world_of pool.old b.old reg.old) }
    requires unoffered { (d : _) → AreUnoffered (spec_now (box_of plugs.now.items plan.now d entry)) reg.old }
    requires outs { (d : _) → AreOutsOpen (spec_now (box_of plugs.now.items plan.now d entry)) b.old.design }
    requires room { (d : _) → half_cost (spec_now (box_of plugs.now.items plan.now d entry)) plan.now ≤ b.old.design.room }
    requires spare { (d : _) → half_cost (spec_now (box_of plugs.now.items plan.now d entry)) plan.now ≤ pool.old.spare }
    requires offer { 1 ≤ reg.old.room }
    ensures fits { WorldFits (world_of pool.new b.new reg.new) }
    ensures frame { (most : ℕ) × Builds (Entry entry) (early_rights reg.new entry) most (world_of pool.old b.old reg.old) (world_of pool.new b.new reg.new) }
    ensures adds { (d : _) → Builds (Entry entry) (early_rights reg.new entry) (half_cost (spec_now (box_of plugs.now.items plan.now d entry)) plan.now) (world_of pool.old b.old reg.old) (world_of pool.new b.new reg.new) }
    ensures offers { OffersBy entry reg.old reg.new }
    ensures offered { (d : _) → OffersItsOwn (spec_now (box_of plugs.now.items plan.now d entry)) entry reg.new }
    ensures offer { reg.old.room ≤ reg.new.room + 1 }
    ensures open { AreOpen entry (world_of pool.new b.new reg.new) }
    ensures begun { (d : _) → begun (box_of plugs.now.items plan.now d entry) plan.now (part_in (takes_of (spec_now (box_of plugs.now.items plan.now d entry))) entry (world_of pool.new b.new reg.new)) }
{
    b.set_entry(entry);
    let pick = plan.picks.items()[entry as usize];
    early_of(&plugs[pick as usize], b, pool, plan, reg);
}

/// Each box of the plan begins, in its order.
pub(crate) fn early_all(
    plugs: &Vec<Box<dyn Plugin>>,
    b: &mut Builder,
    pool: &mut Pool,
    plan: &Plan,
    reg: &mut Registry,
)
    requires plan { IsBuildable (λ x. spec_now x) plugs.now.items plan.now }
    requires begin { EarlySoFar (λ x. spec_now x) (λ x plan part. begun x plan part) plugs.now.items plan.now pool.old (pipe_share plan.now) 0 (world_of pool.old b.old reg.old) }
    ensures begun { EarlySoFar (λ x. spec_now x) (λ x plan part. begun x plan part) plugs.now.items plan.now pool.old (pipe_share plan.now) (length plan.now.order) (world_of pool.new b.new reg.new) }
{
    for entry in plan.order.items().iter() {
        early_entry(plugs, *entry, b, pool, plan, reg);
    }
}
