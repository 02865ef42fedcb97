ghost use Rattle.std.specs.Prelude.{◌≡◌, ℕ, ◌+◌, ◌<◌, ◌≤◌, length, get_or};
ghost use Rattle.hw_pool.specs.Nodes.{PoolValue};
ghost use Rattle.hw_module.specs.declared.rows.Owner.TheVariants.{Entry};
ghost use Rattle.service_ports.specs.Registry.{OffersBy};
ghost use Rattle.plug_build.specs.World.{Builds, early_rights, late_rights, world_of, part_in};
ghost use Rattle.plug_build.specs.Fits.{WorldFits};
ghost use Rattle.plug_build.specs.Done.{AreOpen, IsDone, OwnsNothing};
ghost use Rattle.plug_part.specs.Part.{Part};
ghost use Rattle.plug_part.specs.Meets.{MeetsLaws};
ghost use Rattle.plug_api.specs.Calls.{AreOutsOpen, AreThere, AreUnoffered, IsLawful, IsPredictOpen, OffersItsOwn, half_cost, takes_of, terms_of};
ghost use Rattle.plug_join.specs.Joined.{EarlySoFar, IsBuildable, IsJoined, IsLeft, LateSoFar, box_of, pipe_share, size_of};

use hw_pool::Pool;
use plug_api::{Plan, Plugin};
use plug_build::Builder;
use service_ports::Registry;

/// One box builds.
fn late_of(p: &Box<dyn Plugin>, b: &mut Builder, pool: &mut Pool, plan: &Plan, reg: &Registry)
    requires lawful { IsLawful (spec_now p.now) plan.now b.old.entry }
    requires fits { WorldFits (world_of pool.old b.old reg.now) }
    requires begun { begun p.now plan.now (part_in (takes_of (spec_now p.now)) b.old.entry (world_of pool.old b.old reg.now)) }
    requires offered { OffersItsOwn (spec_now p.now) b.old.entry reg.now }
    requires needs { AreThere (spec_now p.now) reg.now }
    requires predict { IsPredictOpen (spec_now p.now) reg.now b.old.design }
    requires room { half_cost (spec_now p.now) plan.now ≤ b.old.design.room }
    requires spare { half_cost (spec_now p.now) plan.now ≤ pool.old.spare }
    ensures entry { b.new.entry ≡ b.old.entry }
    ensures fits { WorldFits (world_of pool.new b.new reg.now) }
    ensures adds { Builds (Entry b.old.entry) (late_rights reg.now b.old.entry) (half_cost (spec_now p.now) plan.now) (world_of pool.old b.old reg.now) (world_of pool.new b.new reg.now) }
    ensures done { IsDone b.old.entry (world_of pool.new b.new reg.now) }
    ensures builds { builds p.now plan.now (part_in (takes_of (spec_now p.now)) b.old.entry (world_of pool.new b.new reg.now)) }
    ensures law { (part : Part) → builds p.now plan.now part → MeetsLaws (terms_of (spec_now p.now) plan.now) part }
{
    p.late(b, pool, plan, reg);
}

/// The box of an entry builds.
fn late_entry(
    plugs: &Vec<Box<dyn Plugin>>,
    entry: u32,
    b: &mut Builder,
    pool: &mut Pool,
    plan: &Plan,
    reg: &Registry,
)
    requires entry { entry < length plan.now.picks }
    requires picked { get_or plan.now.picks entry 0 < length plugs.now.items }
    requires lawful { (d : _) → IsLawful (spec_now (box_of plugs.now.items plan.now d entry)) plan.now entry }
    requires fits { WorldFits (world_of pool.old b.old reg.now) }
    requires begun { (d : _) → begun (box_of plugs.now.items plan.now d entry) plan.now (part_in (takes_of (spec_now (box_of plugs.now.items plan.now d entry))) entry (world_of pool.old b.old reg.now)) }
    requires offered { (d : _) → OffersItsOwn (spec_now (box_of plugs.now.items plan.now d entry)) entry reg.now }
    requires needs { (d : _) → AreThere (spec_now (box_of plugs.now.items plan.now d entry)) reg.now }
    requires predict { (d : _) → IsPredictOpen (spec_now (box_of plugs.now.items plan.now d entry)) reg.now b.old.design }
    requires room { (d : _) → half_cost (spec_now (box_of plugs.now.items plan.now d entry)) plan.now ≤ b.old.design.room }
    requires spare { (d : _) → half_cost (spec_now (box_of plugs.now.items plan.now d entry)) plan.now ≤ pool.old.spare }
    ensures fits { WorldFits (world_of pool.new b.new reg.now) }
    ensures frame { (most : ℕ) × Builds (Entry entry) (late_rights reg.now entry) most (world_of pool.old b.old reg.now) (world_of pool.new b.new reg.now) }
    ensures adds { (d : _) → Builds (Entry entry) (late_rights reg.now entry) (half_cost (spec_now (box_of plugs.now.items plan.now d entry)) plan.now) (world_of pool.old b.old reg.now) (world_of pool.new b.new reg.now) }
    ensures done { IsDone entry (world_of pool.new b.new reg.now) }
    ensures builds { (d : _) → builds (box_of plugs.now.items plan.now d entry) plan.now (part_in (takes_of (spec_now (box_of plugs.now.items plan.now d entry))) entry (world_of pool.new b.new reg.now)) }
    ensures law { (d : _) → (p : Part) → builds (box_of plugs.now.items plan.now d entry) plan.now p → MeetsLaws (terms_of (spec_now (box_of plugs.now.items plan.now d entry)) plan.now) p }
{
    b.set_entry(entry);
    let pick = plan.picks.items()[entry as usize];
    late_of(&plugs[pick as usize], b, pool, plan, reg);
}

/// Each box of the plan drives what it made, in the plan's order.
pub(crate) fn late_all(
    plugs: &Vec<Box<dyn Plugin>>,
    b: &mut Builder,
    pool: &mut Pool,
    plan: &Plan,
    reg: &Registry,
)
    requires plan { IsBuildable (λ x. spec_now x) plugs.now.items plan.now }
    requires begun { (first : PoolValue) × EarlySoFar (λ x. spec_now x) (λ x plan part. begun x plan part) plugs.now.items plan.now first (pipe_share plan.now) (length plan.now.order) (world_of pool.old b.old reg.now) }
    ensures done { LateSoFar (λ x. spec_now x) (λ x plan part. begun x plan part) (λ x plan part. builds x plan part) plugs.now.items plan.now pool.old (pipe_share plan.now) (size_of (world_of pool.old b.old reg.now)) (length plan.now.order) (world_of pool.new b.new reg.now) }
    ensures left { IsLeft plan.now (world_of pool.new b.new reg.now) }
    ensures joined { IsJoined (λ x. spec_now x) (λ x plan part. builds x plan part) plugs.now.items plan.now (world_of pool.new b.new reg.now) }
{
    for entry in plan.order.items().iter() {
        late_entry(plugs, *entry, b, pool, plan, reg);
    }
}
