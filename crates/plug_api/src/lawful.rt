ghost use Rattle.std.specs.Prelude.{◌≡◌, ℕ, ◌<◌, List, Option, get_or, length};
ghost use Rattle.stage_map.specs.declared.config.Config.{Config};
ghost use Rattle.stage_map.specs.declared.config.PlugEntry.{PlugEntry};
ghost use Rattle.plug_api.specs.Accept.{IsAccepted, MayBe};
ghost use Rattle.plug_api.specs.Calls.{IsLawful};
ghost use Rattle.plug_api.specs.Picks.{no_entry};
ghost use Rattle.plug_api.specs.declared.spec.ParamFault.{ParamFault};
ghost use Rattle.plug_api.specs.declared.spec.Plan.{Plan};
ghost use Rattle.plug_api.specs.declared.spec.PlugSpec.{PlugSpec};

/// The plan of an accepted configuration is one by which each plug-in that it picks may build as its entry, whatever the plug-ins
/// are. This does nothing: its contract is the law.
pub fn plans_are_lawful<B>()
    ensures { (kind : B → List ℕ) (fault : B → PlugEntry → Option ParamFault) (spec : B → PlugEntry → PlugSpec)
        (boxes : List B) (cfg : Config) (plan : Plan) → MayBe cfg → IsAccepted kind fault spec boxes cfg plan
        → (d : B) (entry : ℕ) → entry < length cfg.entries → IsLawful (spec (get_or boxes (get_or plan.picks entry 0) d) (get_or cfg.entries entry no_entry)) plan entry }
{}
