ghost use Rattle.std.specs.Prelude.{◌≡◌, ℕ, ◌↔◌, ◌<◌, ◌≤◌, ◌^◌, IsTrue, length, get_or, IfOk, IfErr, MatchOption};
ghost use Rattle.plug_api.specs.Picks.{IsPick, IsUnknown, ArePicks, IsFirstUnknown, Repeats, AreDistinct, IsFirstRepeat, no_entry};
ghost use Rattle.plug_api.specs.declared.refusal.RuleRefusal.{RuleRefusal};

use crate::{Plugin, RuleRefusal};
use core_host::Name;
use stage_map::PlugEntry;
use std::alloc::Global;

/// Whether the plug-in is of this kind.
fn is_of_kind(plug: &Box<dyn Plugin>, name: &Name) -> bool
    ensures { IsTrue result ↔ (kind plug.now ≡ name.now) }
{
    plug.spec().name.is(name.text().as_str())
}

/// The first plug-in of this kind.
pub(crate) fn pick(plugs: &Vec<Box<dyn Plugin>>, name: &Name) -> Option<u32>
    requires few { length plugs.now.items < 2 ^ 32 }
    ensures { MatchOption result (IsUnknown (λ b. kind b) plugs.now.items (length plugs.now.items) name.now)
        (λ p. IsPick (λ b. kind b) plugs.now.items name.now p) }
{
    for k in 0..plugs.len() {
        if is_of_kind(&plugs[k], name) {
            return Some(k as u32);
        }
    }
    None
}

/// The first entry behind this one that names its kind.
fn repeat_of(entries: &Vec<PlugEntry>, entry: usize) -> Option<u32>
    requires there { entry < length entries.now.items }
    requires few { length entries.now.items ≤ 32 }
    ensures { MatchOption result ((j : ℕ) → Repeats entries.now.items entry j → ⊥)
        (λ o. Repeats entries.now.items entry o × ((j : ℕ) → j < o → Repeats entries.now.items entry j → ⊥)) }
{
    for other in entry + 1..entries.len() {
        if entries[other].kind.is(entries[entry].kind.text().as_str()) {
            return Some(other as u32);
        }
    }
    None
}

/// The first pair of entries that name one kind.
pub(crate) fn repeated(entries: &Vec<PlugEntry>) -> Option<(u32, u32)>
    requires few { length entries.now.items ≤ 32 }
    ensures { MatchOption result (AreDistinct entries.now.items) (λ p. IsFirstRepeat entries.now.items p.0 p.1) }
{
    for entry in 0..entries.len() {
        if let Some(other) = repeat_of(entries, entry) {
            return Some((entry as u32, other));
        }
    }
    None
}

/// The first plug-in of the kind of each entry.
pub(crate) fn pick_all(
    alloc: Global,
    entries: &Vec<PlugEntry>,
    plugs: &Vec<Box<dyn Plugin>>,
) -> Result<Vec<u32>, RuleRefusal>
    requires few { length entries.now.items ≤ 32 }
    requires few_boxes { length plugs.now.items < 2 ^ 32 }
    ensures ok { IfOk result (λ p. ArePicks (λ b. kind b) plugs.now.items entries.now.items (length entries.now.items) p.items) }
    ensures refused { IfErr result (λ r. (r ≡ RuleRefusal.NoMemory → ⊥)
        → (entry : ℕ) × (r ≡ RuleRefusal.UnknownPlugin entry) × IsFirstUnknown (λ b. kind b) plugs.now.items entries.now.items entry) }
{
    let mut picks = Vec::new(alloc);
    for entry in 0..entries.len() {
        match pick(plugs, &entries[entry].kind) {
            Some(at) => match picks.push(at) {
                Ok(_) => {}
                Err(_) => return Err(RuleRefusal::NoMemory),
            },
            None => {
                return Err(RuleRefusal::UnknownPlugin {
                    entry: entry as u32,
                });
            }
        }
    }
    Ok(picks)
}
