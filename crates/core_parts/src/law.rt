ghost use Rattle.std.specs.Prelude.{ℕ, List, Option, length};
ghost use Rattle.stage_map.specs.declared.config.Config.{Config};
ghost use Rattle.stage_map.specs.declared.config.PlugEntry.{PlugEntry};
ghost use Rattle.plug_build.specs.World.{World};
ghost use Rattle.plug_api.specs.Accept.{IsAccepted, MayBe};
ghost use Rattle.plug_api.specs.Picks.{AreConfigured};
ghost use Rattle.plug_api.specs.declared.spec.ParamFault.{ParamFault};
ghost use Rattle.plug_api.specs.declared.spec.Plan.{Plan};
ghost use Rattle.plug_api.specs.declared.spec.PlugSpec.{PlugSpec};
ghost use Rattle.plug_join.specs.Joined.{AreBuilt};
ghost use Rattle.part_laws.specs.Follow.{IsPlanned};
ghost use Rattle.part_laws.specs.Joined.{AreJoined};
ghost use Rattle.core_parts.specs.Laid.{part_by, services_by, terms_by};

/// What the plug-ins of an accepted plan built, each its part, is joined as the theorem over runs asks: each part meets its laws,
/// each service is offered by one part and taken as it is offered, and the buses are driven. Plan and services fit together: the
/// table is that of the core's instructions, each row is executed by the entry that claims it, and the rows that need system
/// registers by the one that keeps them. This does nothing: its contract is the law.
pub fn accepted_parts_are_joined<B>()
    ensures joined { (kind : B → List ℕ) (taken : B → Option PlugEntry) (now : B → PlugSpec) (fault : B → PlugEntry → Option ParamFault) (spec : B → PlugEntry → PlugSpec)
        (old new : List B) (cfg : Config) (plan : Plan) (w : World) → MayBe cfg → (is : IsAccepted kind fault spec old cfg plan)
        → AreConfigured kind taken now fault spec old new plan.picks cfg.entries (length cfg.entries) → AreBuilt now new plan w
        → AreJoined (terms_by is.specs plan w.reg) (part_by is.specs w) (services_by is.specs w) }
    ensures planned { (kind : B → List ℕ) (taken : B → Option PlugEntry) (now : B → PlugSpec) (fault : B → PlugEntry → Option ParamFault) (spec : B → PlugEntry → PlugSpec)
        (old new : List B) (cfg : Config) (plan : Plan) (w : World) → MayBe cfg → (is : IsAccepted kind fault spec old cfg plan)
        → AreConfigured kind taken now fault spec old new plan.picks cfg.entries (length cfg.entries) → AreBuilt now new plan w
        → IsPlanned (terms_by is.specs plan w.reg) (services_by is.specs w) }
{}
