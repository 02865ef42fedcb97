ghost use Rattle.std.specs.Prelude.{◌≡◌, ℕ, List, ◌⊎◌, ◌<◌, ◌≤◌, ◌^◌, length, get_or, Err, IfOk, IfErr};
ghost use Rattle.plug_api.specs.Accept.{AreTaken, AreNamed, SpecsHold, IsFirstOfSpecs, IsChecked, rows_of, owners_of, IsPlanOf, MayBe, IsAccepted, IsFirstRefusal, IsRepeated, IsLeft, IsLeftShort};
ghost use Rattle.plug_api.specs.Picks.{AreConfigured, AreFaultless, ArePicks, AreShaped, IsFirstFault, IsFirstUnknown, SameKinds, no_entry};
ghost use Rattle.plug_api.specs.SoFar.{AreSaid};
ghost use Rattle.plug_api.specs.Spec.{IsSpec, no_spec};
ghost use Rattle.plug_api.specs.declared.spec.PlugSpec.{PlugSpec};
ghost use Rattle.plug_api.specs.declared.refusal.RuleRefusal.{RuleRefusal};

use crate::checks::{check_claims, check_services, check_size, check_stages, offers_system};
use crate::claims::{OwnedClaim, claims_of};
use crate::configure::configure_all;
use crate::picks::{pick_all, repeated};
use crate::{Plan, PlugSpec, Plugin, RuleRefusal};
use core_host::List;
use isa_table::Claim;
use stage_map::{Config, CoreShape, PlugEntry};
use std::alloc::{AllocError, Global};

/// What rules 4 to 13 find of a configuration that keeps them.
#[derive(Debug, Drop)]
pub struct Checked {
    pub order: Vec<u32>,
    pub claims: Vec<OwnedClaim>,
    pub has_csr: bool,
    pub wanted: u32,
}

/// Rules 4 to 13, on what the plug-ins of the entries say of themselves, one for each entry.
///
/// # Errors
/// The first rule that fails, at its first place; `NoMemory` where memory was refused.
pub fn check_specs(
    alloc: Global,
    shape: CoreShape,
    specs: &Vec<PlugSpec>,
) -> Result<Checked, RuleRefusal>
    requires few { length specs.now.items ≤ 32 }
    requires specs { (i : ℕ) → i < length specs.now.items → IsSpec (get_or specs.now.items i no_spec) }
    ensures ok { IfOk result (λ c. SpecsHold shape specs.now.items × IsChecked specs.now.items c) }
    ensures refused { IfErr result (λ r. (r ≡ RuleRefusal.NoMemory → ⊥) → IsFirstOfSpecs shape specs.now.items r) }
{
    let order = match check_services(alloc, specs) {
        Ok(order) => order,
        Err(refusal) => return Err(refusal),
    };
    let claims = match claims_of(alloc, specs) {
        Ok(claims) => claims,
        Err(_) => return Err(RuleRefusal::NoMemory),
    };
    match check_claims(shape.isa, &claims) {
        Ok(()) => {}
        Err(refusal) => return Err(refusal),
    }
    match check_stages(alloc, shape, specs) {
        Ok(()) => {}
        Err(refusal) => return Err(refusal),
    }
    match check_size(specs, &claims) {
        Ok(wanted) => Ok(Checked {
            order,
            claims,
            has_csr: offers_system(specs),
            wanted,
        }),
        Err(refusal) => Err(refusal),
    }
}

/// The claims without their entries.
fn rows_of(alloc: Global, claims: &Vec<OwnedClaim>) -> Result<Vec<Claim>, AllocError>
    ensures { IfOk result (λ r. r.items ≡ rows_of claims.now.items) }
{
    let mut rows = Vec::new(alloc);
    for k in 0..claims.len() {
        rows.push(claims[k].claim)?;
    }
    Ok(rows)
}

/// The entries of the claims.
fn owners_of(alloc: Global, claims: &Vec<OwnedClaim>) -> Result<Vec<u32>, AllocError>
    ensures { IfOk result (λ r. r.items ≡ owners_of claims.now.items) }
{
    let mut owners = Vec::new(alloc);
    for k in 0..claims.len() {
        owners.push(claims[k].entry)?;
    }
    Ok(owners)
}

/// The plan of a configuration that keeps all rules.
fn plan_of(
    alloc: Global,
    shape: CoreShape,
    picks: Vec<u32>,
    checked: Checked,
) -> Result<Plan, AllocError>
    ensures { (specs : List PlugSpec) → IsChecked specs checked → IfOk result (λ plan. IsPlanOf shape picks.items specs plan) }
{
    let rows = rows_of(alloc, &checked.claims)?;
    let owners = owners_of(alloc, &checked.claims)?;
    Ok(Plan {
        shape,
        picks: List::of(picks),
        order: List::of(checked.order),
        rows: List::of(rows),
        owners: List::of(owners),
        has_csr: checked.has_csr,
        wanted: checked.wanted,
    })
}

/// What the plug-in at this place says of itself now, in memory of its own.
fn spec_at(alloc: Global, plugs: &Vec<Box<dyn Plugin>>, at: usize) -> Result<PlugSpec, AllocError>
    requires { at < length plugs.now.items }
    ensures copy { IfOk result (λ s. (d : _) → s ≡ spec_now (get_or plugs.now.items at d)) }
    ensures is_spec { IfOk result (λ s. IsSpec s) }
{
    plugs[at].spec().copy(alloc)
}

/// What the plug-ins at these places say of themselves now.
fn specs_of(
    alloc: Global,
    plugs: &Vec<Box<dyn Plugin>>,
    picks: &Vec<u32>,
) -> Result<Vec<PlugSpec>, AllocError>
    requires { (i : ℕ) → i < length picks.now.items → get_or picks.now.items i 0 < length plugs.now.items }
    ensures { IfOk result (λ s. AreSaid (λ b. spec_now b) plugs.now.items picks.now.items (length picks.now.items) s.items) }
{
    let mut specs = Vec::new(alloc);
    for i in 0..picks.len() {
        let pick = picks[i] as usize;
        specs.push(spec_at(alloc, plugs, pick)?)?;
    }
    Ok(specs)
}

/// Rules 1 and 2: the plug-in of each entry.
fn name_all(
    alloc: Global,
    entries: &Vec<PlugEntry>,
    plugs: &Vec<Box<dyn Plugin>>,
) -> Result<Vec<u32>, RuleRefusal>
    requires few { length entries.now.items ≤ 32 }
    requires few_boxes { length plugs.now.items < 2 ^ 32 }
    ensures ok { IfOk result (λ p. AreNamed (λ b. kind b) plugs.now.items entries.now.items p.items) }
    ensures refused { IfErr result (λ r. (r ≡ RuleRefusal.NoMemory → ⊥)
        → ((entry : ℕ) × (r ≡ RuleRefusal.UnknownPlugin entry) × IsFirstUnknown (λ b. kind b) plugs.now.items entries.now.items entry)
        ⊎ ((entry : ℕ) × (other : ℕ) × (r ≡ RuleRefusal.RepeatedPlugin entry other) × IsRepeated (λ b. kind b) plugs.now.items entries.now.items entry other)) }
{
    let picks = match pick_all(alloc, entries, plugs) {
        Ok(picks) => picks,
        Err(refusal) => return Err(refusal),
    };
    if let Some((entry, other)) = repeated(entries) {
        return Err(RuleRefusal::RepeatedPlugin { entry, other });
    }
    Ok(picks)
}

/// Rule 3: gives each entry to its plug-in, and asks what the plug-ins say of themselves then.
fn take_all(
    alloc: Global,
    entries: &Vec<PlugEntry>,
    plugs: &mut Vec<Box<dyn Plugin>>,
    picks: &Vec<u32>,
) -> Result<Vec<PlugSpec>, RuleRefusal>
    requires few { length entries.now.items ≤ 32 }
    requires named { AreNamed (λ b. kind b) plugs.old.items entries.now.items picks.now.items }
    ensures faultless { IfOk result (λ s. AreFaultless (λ b e. first_fault b e) plugs.old.items picks.now.items entries.now.items (length entries.now.items)) }
    ensures taken { IfOk result (λ s. AreTaken (λ b e. spec_taken b e) plugs.old.items picks.now.items entries.now.items s.items) }
    ensures configured { IfOk result (λ s. AreConfigured (λ b. kind b) (λ b. taken b) (λ b. spec_now b) (λ b e. first_fault b e) (λ b e. spec_taken b e)
        plugs.old.items plugs.new.items picks.now.items entries.now.items (length entries.now.items)) }
    ensures begun { IfOk result (λ s. AreShaped (λ b plan p. begun b plan p) (λ b e plan p. begun_for b e plan p) plugs.old.items plugs.new.items picks.now.items entries.now.items (length entries.now.items)) }
    ensures builds { IfOk result (λ s. AreShaped (λ b plan p. builds b plan p) (λ b e plan p. builds_for b e plan p) plugs.old.items plugs.new.items picks.now.items entries.now.items (length entries.now.items)) }
    ensures refused { IfErr result (λ r. (r ≡ RuleRefusal.NoMemory → ⊥)
        → (entry : ℕ) × (fault : _) × (r ≡ RuleRefusal.BadParam entry fault) × IsFirstFault (λ b e. first_fault b e) plugs.old.items picks.now.items entries.now.items entry fault
        × AreConfigured (λ b. kind b) (λ b. taken b) (λ b. spec_now b) (λ b e. first_fault b e) (λ b e. spec_taken b e)
        plugs.old.items plugs.new.items picks.now.items entries.now.items entry) }
    ensures stopped { IfErr result (λ r. (count : ℕ) × (count ≤ length entries.now.items)
        × AreConfigured (λ b. kind b) (λ b. taken b) (λ b. spec_now b) (λ b e. first_fault b e) (λ b e. spec_taken b e)
        plugs.old.items plugs.new.items picks.now.items entries.now.items count) }
    ensures kept { SameKinds (λ b. kind b) (λ b e. first_fault b e) (λ b e. spec_taken b e) plugs.old.items plugs.new.items }
{
    match configure_all(alloc, entries, plugs, picks) {
        Ok(()) => {}
        Err(refusal) => return Err(refusal),
    }
    match specs_of(alloc, plugs, picks) {
        Ok(specs) => Ok(specs),
        Err(_) => Err(RuleRefusal::NoMemory),
    }
}

/// Whether the plug-ins make a core of this configuration, and the plan of it.
///
/// An entry names the first plug-in of its kind. Where each entry names one and no two name the same (rules 1 and 2),
/// the entries are given to their plug-ins in order, up to the first that is refused (rule 3); the other rules are
/// tried on what the plug-ins say of themselves then. Plug-ins keep what they took, and the others stay as they were,
/// also where memory is refused.
///
/// # Errors
/// The first rule that fails, at its first place (`RuleRefusal` has the rules in their order); `NoMemory` where memory
/// was refused.
pub fn accept(
    alloc: Global,
    cfg: &Config,
    plugs: &mut Vec<Box<dyn Plugin>>,
) -> Result<Plan, RuleRefusal>
    requires config { MayBe cfg.now }
    requires few { length plugs.old.items < 2 ^ 32 }
    ensures accepted { IfOk result (λ plan. IsAccepted (λ b. kind b) (λ b e. first_fault b e) (λ b e. spec_taken b e) plugs.old.items cfg.now plan) }
    ensures refused { (r : RuleRefusal) → result ≡ Err r → (r ≡ RuleRefusal.NoMemory → ⊥)
        → IsFirstRefusal (λ b. kind b) (λ b e. first_fault b e) (λ b e. spec_taken b e) plugs.old.items cfg.now r }
    ensures took { IfOk result (λ plan. AreConfigured (λ b. kind b) (λ b. taken b) (λ b. spec_now b) (λ b e. first_fault b e) (λ b e. spec_taken b e)
        plugs.old.items plugs.new.items plan.picks cfg.now.entries (length cfg.now.entries)) }
    ensures begun { IfOk result (λ plan. AreShaped (λ b plan p. begun b plan p) (λ b e plan p. begun_for b e plan p) plugs.old.items plugs.new.items plan.picks cfg.now.entries (length cfg.now.entries)) }
    ensures builds { IfOk result (λ plan. AreShaped (λ b plan p. builds b plan p) (λ b e plan p. builds_for b e plan p) plugs.old.items plugs.new.items plan.picks cfg.now.entries (length cfg.now.entries)) }
    ensures left { (r : RuleRefusal) → result ≡ Err r → (r ≡ RuleRefusal.NoMemory → ⊥)
        → IsLeft (λ b. kind b) (λ b. taken b) (λ b. spec_now b) (λ b e. first_fault b e) (λ b e. spec_taken b e) plugs.old.items plugs.new.items cfg.now r }
    ensures short { result ≡ Err RuleRefusal.NoMemory
        → IsLeftShort (λ b. kind b) (λ b. taken b) (λ b. spec_now b) (λ b e. first_fault b e) (λ b e. spec_taken b e) plugs.old.items plugs.new.items cfg.now }
    ensures kept { SameKinds (λ b. kind b) (λ b e. first_fault b e) (λ b e. spec_taken b e) plugs.old.items plugs.new.items }
{
    let entries = cfg.entries.items();
    let picks = match name_all(alloc, entries, plugs) {
        Ok(picks) => picks,
        Err(refusal) => return Err(refusal),
    };
    let specs = match take_all(alloc, entries, plugs, &picks) {
        Ok(specs) => specs,
        Err(refusal) => return Err(refusal),
    };
    let checked = match check_specs(alloc, cfg.shape, &specs) {
        Ok(checked) => checked,
        Err(refusal) => return Err(refusal),
    };
    match plan_of(alloc, cfg.shape, picks, checked) {
        Ok(plan) => Ok(plan),
        Err(_) => Err(RuleRefusal::NoMemory),
    }
}
