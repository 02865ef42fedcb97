ghost use Rattle.std.specs.Prelude.{◌≡◌, ℕ, true, List, get_or};
ghost use Rattle.service_reg.specs.declared.service.Service.TheVariants.{Fetch};
ghost use Rattle.stage_map.specs.declared.config.Config.{Config};
ghost use Rattle.plug_part.specs.Part.{Part};
ghost use Rattle.plug_api.specs.Accept.{MayBe};
ghost use Rattle.plug_api.specs.Picks.{no_entry};
ghost use Rattle.plug_api.specs.Spec.{is_among};
ghost use Rattle.core_parts.specs.Laid.{said_by};
ghost use Rattle.core_gen.specs.Generated.{IsGenerated};
ghost use Rattle.cached_law.specs.Cached.{IsIcachePart};
ghost use Rattle.claim_law.specs.Texts.{KeepsCacheIn};

use plug_api::Plugin;

/// The law of generated cores with a cached fetch, for the boxes before and after `core_gen::generate`, whatever they are. Where an
/// entry of the configuration offers Fetch, and each part that passes the test of its box for this entry keeps the law of a cache of
/// so many lines of so many words, the tree of the text that was generated keeps that cache in each run on honest buses. This does
/// nothing: its contract is the law.
pub fn generated_cores_keep_caches(old: &Vec<Box<dyn Plugin>>, new: &Vec<Box<dyn Plugin>>)
    ensures cached { (cfg : Config) (text : List ℕ) → MayBe cfg
        → (g : IsGenerated (λ b. kind b) (λ b. taken b) (λ b. spec_now b) (λ b e. first_fault b e) (λ b e. spec_taken b e) (λ b plan part. builds b plan part) (λ b e plan part. builds_for b e plan part) old.now.items new.now.items cfg text)
        → (entry : ℕ) → is_among (said_by g.accepted.specs entry).offers Fetch ≡ true
        → (lines words : ℕ) → ((d : _) (p : Part) → builds_for (get_or old.now.items (get_or g.plan.picks entry 0) d) (get_or cfg.entries entry no_entry) g.plan p → IsIcachePart lines words p)
        → KeepsCacheIn lines words g.core }
{}
