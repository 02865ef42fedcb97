ghost use Rattle.std.specs.Prelude.{◌≡◌, IfOk};

use crate::PlugSpec;
use core_host::List;
use isa_table::Claim;
use service_reg::Service;
use stage_map::{KeyUse, copy_name};
use std::alloc::{AllocError, Global};

/// The same services in memory of their own.
pub(crate) fn copy_services(
    alloc: Global,
    services: &Vec<Service>,
) -> Result<Vec<Service>, AllocError>
    ensures { IfOk result (λ c. c.items ≡ services.now.items) }
{
    let mut copies = Vec::new(alloc);
    for k in 0..services.len() {
        copies.push(services[k])?;
    }
    Ok(copies)
}

/// The same claims in memory of their own.
fn copy_claims(alloc: Global, claims: &Vec<Claim>) -> Result<Vec<Claim>, AllocError>
    ensures { IfOk result (λ c. c.items ≡ claims.now.items) }
{
    let mut copies = Vec::new(alloc);
    for k in 0..claims.len() {
        copies.push(claims[k])?;
    }
    Ok(copies)
}

/// The same uses of keys in memory of their own.
fn copy_keys(alloc: Global, keys: &Vec<KeyUse>) -> Result<Vec<KeyUse>, AllocError>
    ensures { IfOk result (λ c. c.items ≡ keys.now.items) }
{
    let mut copies = Vec::new(alloc);
    for key in keys.iter() {
        copies.push(key.copy(alloc)?)?;
    }
    Ok(copies)
}

impl PlugSpec {
    /// The same in memory of its own.
    ///
    /// # Errors
    /// `AllocError` where memory was refused.
    pub fn copy(&self, alloc: Global) -> Result<PlugSpec, AllocError>
        ensures { IfOk result (λ c. c ≡ self.now) }
    {
        let name = copy_name(alloc, &self.name)?;
        let offers = copy_services(alloc, self.offers.items())?;
        let needs = copy_services(alloc, self.needs.items())?;
        let uses = copy_services(alloc, self.uses.items())?;
        let rows = copy_claims(alloc, self.rows.items())?;
        let keys = copy_keys(alloc, self.keys.items())?;
        Ok(PlugSpec {
            name,
            offers: List::of(offers),
            needs: List::of(needs),
            uses: List::of(uses),
            rows: List::of(rows),
            keys: List::of(keys),
            latency: self.latency,
            cost: self.cost,
            place: self.place,
        })
    }
}
