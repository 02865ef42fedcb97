ghost use Rattle.std.specs.Prelude.{◌≡◌, ◌<◌, ◌^◌, length, Err, IfOk};
ghost use Rattle.service_reg.specs.Services.{
  HasNoServiceFault,
  IsBuildOrder,
  IsFirstServiceFault,
  NoLoopBelow,
};
ghost use Rattle.service_reg.specs.Search.{IsBlocker, IsNextOf};

use crate::offer::{first_double, first_unmet, missing_in_core};
use crate::stand::{first_loop, is_among, stands_on};
use crate::{ServiceRefusal, ServiceUse};
use std::alloc::{AllocError, Global};

/// The first entry that `x` stands directly on and that is not placed yet.
fn blocker(specs: &[ServiceUse], placed: &[u32], x: usize) -> Option<usize>
    requires { x < length specs.now }
    ensures { IsBlocker specs.now placed.now x result }
{
    for y in 0..specs.len() {
        if stands_on(specs, x, y) && !is_among(placed, y) {
            return Some(y);
        }
    }
    None
}

/// The least entry that is not placed yet, though all that it stands on is.
fn next(specs: &[ServiceUse], placed: &[u32]) -> Option<u32>
    requires { length specs.now < 2 ^ 32 }
    ensures { IsNextOf specs.now placed.now result }
{
    for x in 0..specs.len() {
        if !is_among(placed, x) && blocker(specs, placed, x).is_none() {
            return Some(x as u32);
        }
    }
    None
}

/// The order in which entries are built, none of which stands on itself.
fn build_order(alloc: Global, specs: &[ServiceUse]) -> Result<Vec<u32>, AllocError>
    requires few { length specs.now < 2 ^ 32 }
    requires no_loop { NoLoopBelow specs.now (length specs.now) }
    ensures { IfOk result (λ o. IsBuildOrder specs.now o.items) }
{
    let mut order = Vec::new(alloc);
    while let Some(x) = next(specs, order.as_slice()) {
        order.push(x)?;
    }
    Ok(order)
}

/// The order in which the entries are built: each behind those that offer what it needs or uses, and the least number
/// first where several may come.
///
/// # Errors
/// The first that holds of `Missing`, for what every core needs (`Fetch`, `Decoder`, `RegFile` and `Hazard`) and then
/// for what an entry needs; `Double` at a service but `Exec`; and `CycleOfNeeds` at the least entry that stands on
/// itself. `NoMemory` where memory runs out.
pub fn order(alloc: Global, specs: &Vec<ServiceUse>) -> Result<Vec<u32>, ServiceRefusal>
    requires { length specs.now.items < 2 ^ 32 }
    ensures ok { IfOk result (λ o. HasNoServiceFault specs.now.items × IsBuildOrder specs.now.items o.items) }
    ensures refused { (r : ServiceRefusal) → result ≡ Err r → (r ≡ ServiceRefusal.NoMemory → ⊥) → IsFirstServiceFault specs.now.items r }
{
    order_of(alloc, specs.as_slice())
}

/// The order in which these entries are built.
fn order_of(alloc: Global, specs: &[ServiceUse]) -> Result<Vec<u32>, ServiceRefusal>
    requires { length specs.now < 2 ^ 32 }
    ensures ok { IfOk result (λ o. HasNoServiceFault specs.now × IsBuildOrder specs.now o.items) }
    ensures refused { (r : ServiceRefusal) → result ≡ Err r → (r ≡ ServiceRefusal.NoMemory → ⊥) → IsFirstServiceFault specs.now r }
{
    if let Some(service) = missing_in_core(specs) {
        return Err(ServiceRefusal::Missing { service, by: None });
    }
    if let Some(unmet) = first_unmet(specs) {
        return Err(ServiceRefusal::Missing {
            service: unmet.service,
            by: Some(unmet.by),
        });
    }
    if let Some(found) = first_double(specs) {
        return Err(ServiceRefusal::Double {
            service: found.service,
            a: found.a,
            b: found.b,
        });
    }
    match first_loop(alloc, specs) {
        Ok(Some(plug)) => Err(ServiceRefusal::CycleOfNeeds { plug }),
        Ok(None) => build_order(alloc, specs).map_err(|_| ServiceRefusal::NoMemory),
        Err(_) => Err(ServiceRefusal::NoMemory),
    }
}
