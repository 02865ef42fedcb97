ghost use Rattle.std.specs.Prelude.{◌≡◌, ◌%◌, ◌<◌, ℕ, List, None, get_or, length};
ghost use Rattle.stage_map.specs.declared.config.Config.{Config};
ghost use Rattle.stage_map.specs.declared.config.PlugEntry.{PlugEntry};
ghost use Rattle.plug_part.specs.Part.{Part};
ghost use Rattle.plug_api.specs.Accept.{MayBe};
ghost use Rattle.plug_api.specs.Picks.{no_entry};
ghost use Rattle.plug_api.specs.declared.spec.Plan.{Plan};
ghost use Rattle.plug_kinds.specs.Kinds.{params_of};
ghost use Rattle.plug_icache.specs.Sizes.{lines_of, words_of};
ghost use Rattle.plug_icache.specs.declared.plugin.Icache.{Icache};
ghost use Rattle.core_gen.specs.Generated.{IsGenerated};
ghost use Rattle.cached_law.specs.Cached.{IsIcachePart};
ghost use Rattle.claim_law.specs.Texts.{KeepsCacheIn};
ghost use Rattle.icache_law.specs.Boxes.{IsIcacheBox};

use plug_api::Plugin;
use plug_icache::{Icache, icache_parts_meet_their_laws};

/// The law of the parts of `Icache`. Each part that passes its test keeps the law of a cache of the sizes of the entry that it took
/// last, or, by its test for an entry without a fault, of that entry's. And it answers as a box of its kind (`boxes`). This
/// does nothing: its contract is the law.
pub fn icaches_keep_lines()
    ensures parts { (b : Icache) (plan : Plan) (p : Part) → plan.shape.reset_pc % 4 ≡ 0 → ⟦<Icache as Plugin>⟧.builds b plan p
        → IsIcachePart (lines_of (params_of (⟦<Icache as Plugin>⟧.taken b))) (words_of (params_of (⟦<Icache as Plugin>⟧.taken b))) p }
    ensures entries { (b : Icache) (e : PlugEntry) (plan : Plan) (p : Part) → ⟦<Icache as Plugin>⟧.first_fault b e ≡ None → plan.shape.reset_pc % 4 ≡ 0
        → ⟦<Icache as Plugin>⟧.builds_for b e plan p → IsIcachePart (lines_of e.params) (words_of e.params) p }
    ensures boxes { (b : Icache) → IsIcacheBox (λ x e. ⟦<Icache as Plugin>⟧.first_fault x e) (λ x e. ⟦<Icache as Plugin>⟧.spec_taken x e) (λ x e plan p. ⟦<Icache as Plugin>⟧.builds_for x e plan p) b }
{
    icache_parts_meet_their_laws();
}

/// The law of cores that are generated with such a box, for the boxes before and after `core_gen::generate`. Where an entry of the
/// configuration is for a box that answers as `Icache` does, the tree of the text keeps the cache of that entry's sizes in each run on
/// honest buses. This does nothing: its contract is the law.
pub fn generated_cores_keep_icaches(old: &Vec<Box<dyn Plugin>>, new: &Vec<Box<dyn Plugin>>)
    ensures cores { (cfg : Config) (text : List ℕ) → MayBe cfg
        → (g : IsGenerated (λ b. kind b) (λ b. taken b) (λ b. spec_now b) (λ b e. first_fault b e) (λ b e. spec_taken b e) (λ b plan part. builds b plan part) (λ b e plan part. builds_for b e plan part) old.now.items new.now.items cfg text)
        → (entry : ℕ) → entry < length cfg.entries
        → ((d : _) → IsIcacheBox (λ b e. first_fault b e) (λ b e. spec_taken b e) (λ b e plan part. builds_for b e plan part) (get_or old.now.items (get_or g.plan.picks entry 0) d))
        → KeepsCacheIn (lines_of (get_or cfg.entries entry no_entry).params) (words_of (get_or cfg.entries entry no_entry).params) g.core }
{
    icache_parts_meet_their_laws();
}
