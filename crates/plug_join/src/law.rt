ghost use Rattle.std.specs.Prelude.{◌≡◌, ℕ, ◌+◌, ◌<◌, ◌≤◌, Bool, List, Option, length};
ghost use Rattle.hw_module.specs.declared.rows.Owner.{Owner};
ghost use Rattle.hw_module.specs.declared.rows.Owner.TheVariants.{Entry};
ghost use Rattle.hw_module.specs.Rights.{Rights};
ghost use Rattle.service_reg.specs.declared.service.Service.{Service};
ghost use Rattle.plug_build.specs.World.{Builds, World};
ghost use Rattle.plug_build.specs.Fits.{WorldFits};
ghost use Rattle.plug_build.specs.Frame.{Leaves};
ghost use Rattle.stage_map.specs.declared.config.Config.{Config};
ghost use Rattle.stage_map.specs.declared.config.PlugEntry.{PlugEntry};
ghost use Rattle.plug_api.specs.Accept.{IsAccepted, MayBe};
ghost use Rattle.plug_api.specs.Picks.{AreConfigured};
ghost use Rattle.plug_api.specs.declared.spec.ParamFault.{ParamFault};
ghost use Rattle.plug_api.specs.declared.spec.Plan.{Plan};
ghost use Rattle.plug_api.specs.declared.spec.PlugSpec.{PlugSpec};
ghost use Rattle.plug_join.specs.Joined.{AreBuilt, IsBuildable, pipe_share, rest_half};

/// By the plan of an accepted configuration the plug-ins that took their entries can build, whatever they are: each entry comes
/// once, behind those whose services it takes, and what all may make in both calls, and the pipeline's share, is within what the
/// plan wants. This does nothing: its contract is the law.
pub fn accepted_plans_build<B>()
    ensures buildable { (kind : B → List ℕ) (taken : B → Option PlugEntry) (now : B → PlugSpec) (fault : B → PlugEntry → Option ParamFault) (spec : B → PlugEntry → PlugSpec)
        (old new : List B) (cfg : Config) (plan : Plan) → MayBe cfg → IsAccepted kind fault spec old cfg plan
        → AreConfigured kind taken now fault spec old new plan.picks cfg.entries (length cfg.entries) → IsBuildable now new plan }
    ensures shares { (kind : B → List ℕ) (taken : B → Option PlugEntry) (now : B → PlugSpec) (fault : B → PlugEntry → Option ParamFault) (spec : B → PlugEntry → PlugSpec)
        (old new : List B) (cfg : Config) (plan : Plan) → IsAccepted kind fault spec old cfg plan
        → AreConfigured kind taken now fault spec old new plan.picks cfg.entries (length cfg.entries)
        → (d : B) → pipe_share plan + rest_half now new plan d 0 + rest_half now new plan d 0 ≤ plan.wanted }
{}

/// What the boxes of a plan built stays so while another owner, as the pipeline, builds and leaves to each entry what is its own. This does
/// nothing: its contract is the law.
pub fn joined_parts_stay<B>()
    ensures { (spec : B → PlugSpec) (boxes : List B) (plan : Plan) (by : Owner) (r : Rights) (most : ℕ) (old new : World)
        → AreBuilt spec boxes plan old → WorldFits old → ((entry : ℕ) → by ≡ Entry entry → ⊥) → Builds by r most old new → new.reg ≡ old.reg
        → ((takes : Service → Bool) (entry : ℕ) → entry < length plan.picks → Leaves takes entry r old new) → AreBuilt spec boxes plan new }
{}
