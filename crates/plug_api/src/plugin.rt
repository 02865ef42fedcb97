ghost use Rattle.std.specs.Prelude.{◌≡◌, ◌↔◌, ◌+◌, ◌≤◌, ℕ, List, Option, Some, None, OnOk, OnErr, IfErr, IsOk, length};
ghost use Rattle.stage_map.specs.declared.config.PlugEntry.{PlugEntry};
ghost use Rattle.hw_module.specs.declared.rows.Owner.TheVariants.{Entry};
ghost use Rattle.service_ports.specs.Registry.{OffersBy};
ghost use Rattle.plug_part.specs.Part.{Part};
ghost use Rattle.plug_part.specs.Meets.{MeetsLaws};
ghost use Rattle.plug_build.specs.World.{Builds, early_rights, late_rights, part_in, world_of};
ghost use Rattle.plug_build.specs.Fits.{WorldFits};
ghost use Rattle.plug_build.specs.Done.{AreOpen, IsDone, OwnsNothing};
ghost use Rattle.plug_api.specs.declared.spec.PlugSpec.{PlugSpec};
ghost use Rattle.plug_api.specs.declared.spec.ParamFault.{ParamFault};
ghost use Rattle.plug_api.specs.declared.spec.Plan.{Plan};
ghost use Rattle.plug_api.specs.Spec.{IsSound, IsSpec};
ghost use Rattle.plug_api.specs.Calls.{
  AreOutsOpen,
  AreThere,
  AreUnoffered,
  IsLawful,
  IsPredictOpen,
  OffersItsOwn,
  half_cost,
  takes_of,
  terms_of,
};

use crate::{ParamFault, Plan, PlugSpec};
use hw_pool::Pool;
use plug_build::Builder;
use service_ports::Registry;
use stage_map::PlugEntry;
use std::alloc::Global;

/// A plug-in: a part of a core that a configuration can name, with the parameters that it takes. It builds its part in two
/// calls: in `early` it offers its services, and in `late` it takes those of others. What it builds it says by two tests of
/// parts, and each part that passes `builds` meets the laws of its services.
pub trait Plugin: Drop {
    /// The name of its kind, by which an entry names it.
    ghost kind: { Self → List ℕ };

    /// The entry that it took last.
    ghost taken: { Self → Option PlugEntry };

    /// What it says of itself now.
    ghost spec_now: { Self → PlugSpec };

    /// The first fault of an entry, and what the plug-in says of itself once it took an entry. Neither ever changes.
    ghost first_fault: { Self → PlugEntry → Option ParamFault };

    ghost spec_taken: { Self → PlugEntry → PlugSpec };

    /// What its part is for a plan, after `early` and after both calls.
    ghost begun: { Self → Plan → Part → Type 0 };

    ghost builds: { Self → Plan → Part → Type 0 };

    /// The same two once it took an entry. Neither ever changes.
    ghost begun_for: { Self → PlugEntry → Plan → Part → Type 0 };

    ghost builds_for: { Self → PlugEntry → Plan → Part → Type 0 };

    /// What the plug-in says of itself, lent. It takes no memory.
    fn spec(&self) -> &PlugSpec
        ensures now { result.now ≡ spec_now self.now }
        ensures name { (spec_now self.now).name ≡ kind self.now }
        ensures is_spec { IsSpec (spec_now self.now) }
        // Want of memory is no fault of an entry, and what it says once it took an entry a plug-in may say.
        ensures sound { IsSound (first_fault self.now) (spec_taken self.now) };

    /// Takes the parameters of an entry, or refuses their first fault and stays as it was.
    fn configure(&mut self, alloc: Global, entry: &PlugEntry) -> Result<(), ParamFault>
        ensures kind { kind self.new ≡ kind self.old }
        ensures faults { (e : PlugEntry) → first_fault self.new e ≡ first_fault self.old e }
        ensures specs { (e : PlugEntry) → spec_taken self.new e ≡ spec_taken self.old e }
        ensures begun_fors { (e : PlugEntry) (plan : Plan) (p : Part) → begun_for self.new e plan p ↔ begun_for self.old e plan p }
        ensures builds_fors { (e : PlugEntry) (plan : Plan) (p : Part) → builds_for self.new e plan p ↔ builds_for self.old e plan p }
        ensures ok { IsOk result → first_fault self.old entry.now ≡ None }
        ensures fault { IfErr result (λ f. (f ≡ ParamFault.NoMemory → ⊥) → first_fault self.old entry.now ≡ Some f) }
        ensures took { OnOk result (taken self.new ≡ Some entry.now) }
        ensures spec { OnOk result (spec_now self.new ≡ spec_taken self.old entry.now) }
        ensures begins { OnOk result ((plan : Plan) (p : Part) → begun self.new plan p ↔ begun_for self.old entry.now plan p) }
        ensures builds { OnOk result ((plan : Plan) (p : Part) → builds self.new plan p ↔ builds_for self.old entry.now plan p) }
        ensures not_taken { OnErr result (taken self.new ≡ taken self.old) }
        ensures spec_kept { OnErr result (spec_now self.new ≡ spec_now self.old) }
        ensures begun_kept { OnErr result ((plan : Plan) (p : Part) → begun self.new plan p ↔ begun self.old plan p) }
        ensures builds_kept { OnErr result ((plan : Plan) (p : Part) → builds self.new plan p ↔ builds self.old plan p) };

    /// Makes the things of the builder's entry, and offers its services. The entry owns and offers nothing before. It takes no
    /// memory.
    fn early(&self, b: &mut Builder, pool: &mut Pool, plan: &Plan, reg: &mut Registry)
        requires lawful { IsLawful (spec_now self.now) plan.now b.old.entry }
        requires fits { WorldFits (world_of pool.old b.old reg.old) }
        requires nothing { OwnsNothing b.old.entry (world_of pool.old b.old reg.old) }
        requires unoffered { AreUnoffered (spec_now self.now) reg.old }
        requires outs { AreOutsOpen (spec_now self.now) b.old.design }
        requires room { half_cost (spec_now self.now) plan.now ≤ b.old.design.room }
        requires spare { half_cost (spec_now self.now) plan.now ≤ pool.old.spare }
        requires offer { 1 ≤ reg.old.room }
        ensures entry { b.new.entry ≡ b.old.entry }
        ensures fits { WorldFits (world_of pool.new b.new reg.new) }
        ensures adds { Builds (Entry b.old.entry) (early_rights reg.new b.old.entry) (half_cost (spec_now self.now) plan.now)
            (world_of pool.old b.old reg.old) (world_of pool.new b.new reg.new) }
        ensures offers { OffersBy b.old.entry reg.old reg.new }
        ensures offered { OffersItsOwn (spec_now self.now) b.old.entry reg.new }
        ensures once { length reg.new.execs ≤ length reg.old.execs + 1 }
        ensures offer { reg.old.room ≤ reg.new.room + 1 }
        ensures open { AreOpen b.old.entry (world_of pool.new b.new reg.new) }
        ensures begun { begun self.now plan.now (part_in (takes_of (spec_now self.now)) b.old.entry (world_of pool.new b.new reg.new)) };

    /// Drives what the builder's entry made. What it needs is offered. It takes no memory.
    fn late(&self, b: &mut Builder, pool: &mut Pool, plan: &Plan, reg: &Registry)
        requires lawful { IsLawful (spec_now self.now) plan.now b.old.entry }
        requires fits { WorldFits (world_of pool.old b.old reg.now) }
        requires begun { begun self.now plan.now (part_in (takes_of (spec_now self.now)) b.old.entry (world_of pool.old b.old reg.now)) }
        requires offered { OffersItsOwn (spec_now self.now) b.old.entry reg.now }
        requires needs { AreThere (spec_now self.now) reg.now }
        requires predict { IsPredictOpen (spec_now self.now) reg.now b.old.design }
        requires room { half_cost (spec_now self.now) plan.now ≤ b.old.design.room }
        requires spare { half_cost (spec_now self.now) plan.now ≤ pool.old.spare }
        ensures entry { b.new.entry ≡ b.old.entry }
        ensures fits { WorldFits (world_of pool.new b.new reg.now) }
        ensures adds { Builds (Entry b.old.entry) (late_rights reg.now b.old.entry) (half_cost (spec_now self.now) plan.now)
            (world_of pool.old b.old reg.now) (world_of pool.new b.new reg.now) }
        ensures done { IsDone b.old.entry (world_of pool.new b.new reg.now) }
        ensures builds { builds self.now plan.now (part_in (takes_of (spec_now self.now)) b.old.entry (world_of pool.new b.new reg.now)) }
        // Every part that passes the test meets the laws of its services, with the latency that the plug-in says.
        ensures law { (p : Part) → builds self.now plan.now p → MeetsLaws (terms_of (spec_now self.now) plan.now) p };
}
