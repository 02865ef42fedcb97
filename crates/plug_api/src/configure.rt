ghost use Rattle.std.specs.Prelude.{◌≡◌, ◌↔◌, ℕ, ◌<◌, ◌≤◌, length, get_or, Some, None, Err, OnOk, IfErr};
ghost use Rattle.stage_map.specs.declared.config.PlugEntry.{PlugEntry};
ghost use Rattle.plug_part.specs.Part.{Part};
ghost use Rattle.plug_api.specs.Picks.{ArePicks, AreDistinct, AreShaped, ChangedAt, AreConfigured, AreFaultless, IsFirstFault, SameKinds, no_entry};
ghost use Rattle.plug_api.specs.declared.spec.Plan.{Plan};
ghost use Rattle.plug_api.specs.Accept.{refusal_of};
ghost use Rattle.plug_api.specs.declared.refusal.RuleRefusal.{RuleRefusal};

use crate::{ParamFault, Plugin, RuleRefusal};
use stage_map::PlugEntry;
use std::alloc::Global;

/// Gives an entry to the plug-in at this place.
fn configure_at(
    alloc: Global,
    plugs: &mut Vec<Box<dyn Plugin>>,
    at: usize,
    entry: &PlugEntry,
) -> Result<(), ParamFault>
    requires { at < length plugs.old.items }
    ensures changed { ChangedAt (λ b. kind b) (λ b e. first_fault b e) (λ b e. spec_taken b e) plugs.old.items plugs.new.items at }
    ensures fault { IfErr result (λ f. (f ≡ ParamFault.NoMemory → ⊥) → (d : _) → first_fault (get_or plugs.old.items at d) entry.now ≡ Some f) }
    ensures no_fault { OnOk result ((d : _) → first_fault (get_or plugs.old.items at d) entry.now ≡ None) }
    ensures took { OnOk result ((d : _) → taken (get_or plugs.new.items at d) ≡ Some entry.now) }
    ensures spec { OnOk result ((d : _) → spec_now (get_or plugs.new.items at d) ≡ spec_taken (get_or plugs.old.items at d) entry.now) }
    ensures begun_for { (d : _) (e : PlugEntry) (plan : Plan) (p : Part) → begun_for (get_or plugs.new.items at d) e plan p ↔ begun_for (get_or plugs.old.items at d) e plan p }
    ensures builds_for { (d : _) (e : PlugEntry) (plan : Plan) (p : Part) → builds_for (get_or plugs.new.items at d) e plan p ↔ builds_for (get_or plugs.old.items at d) e plan p }
    ensures begun { OnOk result ((d : _) (plan : Plan) (p : Part) → begun (get_or plugs.new.items at d) plan p ↔ begun_for (get_or plugs.old.items at d) entry.now plan p) }
    ensures builds { OnOk result ((d : _) (plan : Plan) (p : Part) → builds (get_or plugs.new.items at d) plan p ↔ builds_for (get_or plugs.old.items at d) entry.now plan p) }
    ensures not_taken { IfErr result (λ f. (d : _) → taken (get_or plugs.new.items at d) ≡ taken (get_or plugs.old.items at d)) }
    ensures spec_kept { IfErr result (λ f. (d : _) → spec_now (get_or plugs.new.items at d) ≡ spec_now (get_or plugs.old.items at d)) }
{
    plugs[at].configure(alloc, entry)
}

/// What a fault of this entry is to the caller.
fn refused(entry: u32, fault: ParamFault) -> RuleRefusal
    ensures { result ≡ refusal_of entry fault }
{
    match fault {
        ParamFault::NoMemory => RuleRefusal::NoMemory,
        fault => RuleRefusal::BadParam { entry, fault },
    }
}

/// Gives each entry to its plug-in, up to the first that is refused.
pub(crate) fn configure_all(
    alloc: Global,
    entries: &Vec<PlugEntry>,
    plugs: &mut Vec<Box<dyn Plugin>>,
    picks: &Vec<u32>,
) -> Result<(), RuleRefusal>
    requires few { length entries.now.items ≤ 32 }
    requires picks { ArePicks (λ b. kind b) plugs.old.items entries.now.items (length entries.now.items) picks.now.items }
    requires distinct { AreDistinct entries.now.items }
    ensures ok { OnOk result (AreConfigured (λ b. kind b) (λ b. taken b) (λ b. spec_now b) (λ b e. first_fault b e) (λ b e. spec_taken b e)
        plugs.old.items plugs.new.items picks.now.items entries.now.items (length entries.now.items)) }
    ensures begun { OnOk result (AreShaped (λ b plan p. begun b plan p) (λ b e plan p. begun_for b e plan p) plugs.old.items plugs.new.items picks.now.items entries.now.items (length entries.now.items)) }
    ensures builds { OnOk result (AreShaped (λ b plan p. builds b plan p) (λ b e plan p. builds_for b e plan p) plugs.old.items plugs.new.items picks.now.items entries.now.items (length entries.now.items)) }
    ensures faultless { OnOk result (AreFaultless (λ b e. first_fault b e) plugs.old.items picks.now.items entries.now.items (length entries.now.items)) }
    ensures refused { IfErr result (λ r. (r ≡ RuleRefusal.NoMemory → ⊥)
        → (entry : ℕ) × (fault : _) × (r ≡ RuleRefusal.BadParam entry fault) × IsFirstFault (λ b e. first_fault b e) plugs.old.items picks.now.items entries.now.items entry fault
        × AreConfigured (λ b. kind b) (λ b. taken b) (λ b. spec_now b) (λ b e. first_fault b e) (λ b e. spec_taken b e)
        plugs.old.items plugs.new.items picks.now.items entries.now.items entry) }
    ensures stopped { IfErr result (λ r. (count : ℕ) × (count < length entries.now.items)
        × AreConfigured (λ b. kind b) (λ b. taken b) (λ b. spec_now b) (λ b e. first_fault b e) (λ b e. spec_taken b e)
        plugs.old.items plugs.new.items picks.now.items entries.now.items count) }
    ensures kept { SameKinds (λ b. kind b) (λ b e. first_fault b e) (λ b e. spec_taken b e) plugs.old.items plugs.new.items }
{
    for i in 0..entries.len() {
        let pick = picks[i] as usize;
        match configure_at(alloc, plugs, pick, &entries[i]) {
            Ok(()) => {}
            Err(fault) => return Err(refused(i as u32, fault)),
        }
    }
    Ok(())
}
