ghost use Rattle.std.specs.Prelude.{◌≡◌, ℕ, ◌↔◌, ◌<◌, ◌≤◌, ◌+◌, ◌*◌, ◌++◌, IsTrue, length, get_or, map, Err, IfOk, OnOk, IfErr, IsOk};
ghost use Rattle.plug_api.specs.Accept.{use_of, uses_of, used_by, keys_of, stage_of, place_of, places_of, of_service, of_stages, ClaimsHold, StagesHold, stages_of, IsFirstOfClaims};
ghost use Rattle.std.specs.List.{Contains};
ghost use Rattle.plug_api.specs.Rules.{claims_of, wanted_by};
ghost use Rattle.plug_api.specs.Spec.{IsSpec, no_spec};
ghost use Rattle.plug_api.specs.declared.refusal.RuleRefusal.{RuleRefusal};
ghost use Rattle.service_reg.specs.Services.{HasNoServiceFault, IsBuildOrder, IsFirstServiceFault, IsOffered};
ghost use Rattle.service_reg.specs.declared.service.Service.{Service};
ghost use Rattle.service_reg.specs.declared.service.ServiceRefusal.{ServiceRefusal};
ghost use Rattle.stage_map.specs.Stages.{HasNoStageFault, IsFirstStageFault};
ghost use Rattle.stage_map.specs.declared.keys.StageRefusal.{StageRefusal};

use crate::claims::{OwnedClaim, clash, extra, missing, wanted};
use crate::copies::copy_services;
use crate::{Place, PlugSpec, RuleRefusal};
use core_host::List;
use service_reg::{Service, ServiceRefusal, ServiceUse, order};
use stage_map::{CoreShape, Isa, KeyUse, Stage, StageMap, StageRefusal};
use std::alloc::{AllocError, Global};

/// The services of an entry, in memory of their own.
fn use_of(alloc: Global, spec: &PlugSpec) -> Result<ServiceUse, AllocError>
    ensures { IfOk result (λ u. u ≡ use_of spec.now) }
{
    let offers = copy_services(alloc, spec.offers.items())?;
    let needs = copy_services(alloc, spec.needs.items())?;
    let uses = copy_services(alloc, spec.uses.items())?;
    Ok(ServiceUse {
        offers: List::of(offers),
        needs: List::of(needs),
        uses: List::of(uses),
    })
}

/// The services of all entries, in memory of their own.
fn uses_of(alloc: Global, specs: &Vec<PlugSpec>) -> Result<Vec<ServiceUse>, AllocError>
    ensures { IfOk result (λ u. u.items ≡ uses_of specs.now.items) }
{
    let mut uses = Vec::new(alloc);
    for spec in specs.iter() {
        uses.push(use_of(alloc, spec)?)?;
    }
    Ok(uses)
}

/// What a fault of services is to the caller.
fn of_service(fault: ServiceRefusal) -> RuleRefusal
    ensures { result ≡ of_service fault }
{
    match fault {
        ServiceRefusal::Missing { service, by } => RuleRefusal::Missing { service, by },
        ServiceRefusal::Double { service, a, b } => RuleRefusal::Double { service, a, b },
        ServiceRefusal::CycleOfNeeds { plug } => RuleRefusal::CycleOfNeeds { plug },
        ServiceRefusal::NoMemory => RuleRefusal::NoMemory,
    }
}

/// The order of building, where services are neither missing nor doubled and no entry stands on itself.
pub(crate) fn check_services(alloc: Global, specs: &Vec<PlugSpec>) -> Result<Vec<u32>, RuleRefusal>
    requires few { length specs.now.items ≤ 32 }
    ensures ok { IfOk result (λ o. HasNoServiceFault (uses_of specs.now.items) × IsBuildOrder (uses_of specs.now.items) o.items) }
    ensures refused { IfErr result (λ r. (r ≡ RuleRefusal.NoMemory → ⊥)
        → (f : ServiceRefusal) × (r ≡ of_service f) × IsFirstServiceFault (uses_of specs.now.items) f) }
{
    let uses = match uses_of(alloc, specs) {
        Ok(uses) => uses,
        Err(_) => return Err(RuleRefusal::NoMemory),
    };
    match order(alloc, &uses) {
        Ok(order) => Ok(order),
        Err(fault) => Err(of_service(fault)),
    }
}

/// Whether no claims clash, and the claims are those of the set.
pub(crate) fn check_claims(isa: Isa, claims: &Vec<OwnedClaim>) -> Result<(), RuleRefusal>
    ensures ok { OnOk result (ClaimsHold isa claims.now.items) }
    ensures refused { IfErr result (λ r. IsFirstOfClaims isa claims.now.items r) }
{
    if let Some((a, b)) = clash(claims) {
        return Err(RuleRefusal::EncodingClash {
            entry: claims[a].entry,
            row: claims[a].claim.row,
            other: claims[b].entry,
            other_row: claims[b].claim.row,
        });
    }
    if let Some(row) = missing(isa, claims) {
        return Err(RuleRefusal::IsaMissing { row });
    }
    if let Some((entry, row)) = extra(isa, claims) {
        return Err(RuleRefusal::IsaExtra { entry, row });
    }
    Ok(())
}

/// The stage of a place.
fn stage_of(commit: Stage, place: Place) -> Option<Stage>
    ensures { result ≡ stage_of commit place }
{
    match place {
        Place::Execute => Some(Stage::Execute),
        Place::Commit => Some(commit),
        Place::Apart => None,
    }
}

/// The stage of each entry that has one.
fn places_of(
    alloc: Global,
    commit: Stage,
    specs: &Vec<PlugSpec>,
) -> Result<Vec<Option<Stage>>, AllocError>
    ensures { IfOk result (λ p. p.items ≡ places_of commit specs.now.items) }
{
    let mut places = Vec::new(alloc);
    for spec in specs.iter() {
        places.push(stage_of(commit, spec.place))?;
    }
    Ok(places)
}

/// Notes the uses of keys by one entry.
fn note_keys(
    alloc: Global,
    noted: &mut StageMap,
    entry: u32,
    keys: &Vec<KeyUse>,
) -> Result<(), AllocError>
    requires { length keys.now.items ≤ noted.old.room }
    ensures uses { OnOk result (noted.new.uses ≡ noted.old.uses ++ map (used_by entry) keys.now.items) }
    ensures stages { noted.new.stages ≡ noted.old.stages }
    ensures room { OnOk result (noted.new.room + length keys.now.items ≡ noted.old.room) }
{
    for k in 0..keys.len() {
        noted.note(entry, keys[k].copy(alloc)?);
    }
    Ok(())
}

/// The uses of keys by all entries, in the stages of the pipeline.
fn stages_of(alloc: Global, stages: u32, specs: &Vec<PlugSpec>) -> Result<StageMap, AllocError>
    requires few { length specs.now.items ≤ 32 }
    requires specs { (i : ℕ) → i < length specs.now.items → IsSpec (get_or specs.now.items i no_spec) }
    ensures { IfOk result (λ m. (m.stages ≡ stages) × (m.uses ≡ keys_of specs.now.items)) }
{
    let mut noted = StageMap::with_room(alloc, stages, 1024)?;
    for entry in 0..specs.len() {
        note_keys(alloc, &mut noted, entry as u32, specs[entry].keys.items())?;
    }
    Ok(noted)
}

/// What a fault of stages is to the caller.
fn of_stages(fault: StageRefusal) -> RuleRefusal
    ensures { result ≡ of_stages fault }
{
    match fault {
        StageRefusal::StageAbsent { plug, stage } => RuleRefusal::StageAbsent { plug, stage },
        StageRefusal::StageOrder {
            key,
            reader,
            writer,
        } => RuleRefusal::StageOrder {
            key,
            reader,
            writer,
        },
        StageRefusal::KeyTwice { key, a, b } => RuleRefusal::KeyTwice { key, a, b },
        StageRefusal::NoMemory => RuleRefusal::NoMemory,
    }
}

/// Whether each stage is there, and each key is written once and read behind that.
pub(crate) fn check_stages(
    alloc: Global,
    shape: CoreShape,
    specs: &Vec<PlugSpec>,
) -> Result<(), RuleRefusal>
    requires few { length specs.now.items ≤ 32 }
    requires specs { (i : ℕ) → i < length specs.now.items → IsSpec (get_or specs.now.items i no_spec) }
    ensures ok { OnOk result (StagesHold shape specs.now.items) }
    ensures refused { IfErr result (λ r. (r ≡ RuleRefusal.NoMemory → ⊥)
        → (f : StageRefusal) × (r ≡ of_stages f)
        × IsFirstStageFault (stages_of shape specs.now.items) (places_of shape.commit specs.now.items) shape.commit f) }
{
    let noted = match stages_of(alloc, shape.stages, specs) {
        Ok(noted) => noted,
        Err(_) => return Err(RuleRefusal::NoMemory),
    };
    let places = match places_of(alloc, shape.commit, specs) {
        Ok(places) => places,
        Err(_) => return Err(RuleRefusal::NoMemory),
    };
    match noted.check(alloc, &places, shape.commit) {
        Ok(()) => Ok(()),
        Err(fault) => Err(of_stages(fault)),
    }
}

/// How many things the module may have, where there is room for them.
pub(crate) fn check_size(
    specs: &Vec<PlugSpec>,
    claims: &Vec<OwnedClaim>,
) -> Result<u32, RuleRefusal>
    requires few { length specs.now.items ≤ 32 }
    requires specs { (i : ℕ) → i < length specs.now.items → IsSpec (get_or specs.now.items i no_spec) }
    requires claims { claims.now.items ≡ claims_of specs.now.items }
    ensures ok { IfOk result (λ w. (w ≡ wanted_by specs.now.items) × (w ≤ 65535)) }
    ensures refused { IfErr result (λ r. (r ≡ RuleRefusal.TooLarge (wanted_by specs.now.items) 65535) × (65535 < wanted_by specs.now.items)) }
{
    let wanted = wanted(specs, claims.len() as u32);
    if wanted > 65535 {
        return Err(RuleRefusal::TooLarge {
            wanted,
            limit: 65535,
        });
    }
    Ok(wanted as u32)
}

/// Whether some entry offers the system registers.
pub(crate) fn offers_system(specs: &Vec<PlugSpec>) -> bool
    ensures { IsTrue result ↔ IsOffered (uses_of specs.now.items) Service.System }
{
    for entry in 0..specs.len() {
        if is_system(specs[entry].offers.items()) {
            return true;
        }
    }
    false
}

/// Whether the system registers are one of these services.
fn is_system(services: &Vec<Service>) -> bool
    ensures { IsTrue result ↔ Contains services.now.items Service.System }
{
    for k in 0..services.len() {
        if services[k] == Service::System {
            return true;
        }
    }
    false
}
