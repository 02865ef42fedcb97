ghost use Rattle.std.specs.Prelude.{◌≡◌, ℕ, ◌<◌, [], length, get_or, map, None, IfOk};
ghost use Rattle.plug_kinds.specs.Kinds.{claim_of, fault_of, spec_of};

use crate::Kind;
use crate::latency::latency_of;
use crate::table::row_of;
use core_host::{List, Name};
use isa_table::{Claim, row_at};
use plug_api::{Cost, PlugSpec};
use service_reg::Service;
use stage_map::Param;
use std::alloc::{AllocError, Global};

/// The claims of rows of the instruction table.
fn claims_of(alloc: Global, rows: &[u32]) -> Result<Vec<Claim>, AllocError>
    requires { (i : ℕ) → i < length rows.now → get_or rows.now i 0 < 57 }
    ensures { IfOk result (λ c. c.items ≡ map claim_of rows.now) }
{
    let mut claims = Vec::new(alloc);
    for k in 0..rows.len() {
        let row = row_at(rows[k]);
        claims.push(Claim {
            mask: row.mask,
            value: row.value,
            row: row.index,
        })?;
    }
    Ok(claims)
}

fn services(alloc: Global, services: &'static [Service]) -> Result<List<Service>, AllocError>
    ensures { IfOk result (λ l. l ≡ services.now) }
{
    Ok(List::of(Vec::from_slice(alloc, services)?))
}

/// What a kind says of itself once it took these parameters.
///
/// # Errors
/// `AllocError` where memory was refused.
pub fn spec_of(alloc: Global, kind: Kind, params: &[Param]) -> Result<PlugSpec, AllocError>
    requires { fault_of kind params.now ≡ None }
    ensures { IfOk result (λ s. s ≡ spec_of kind params.now) }
{
    let row = row_of(kind);
    let claims = claims_of(alloc, row.rows)?;
    Ok(PlugSpec {
        name: Name::of(String::from_str(alloc, row.name)?),
        offers: services(alloc, row.offers)?,
        needs: services(alloc, row.needs)?,
        uses: services(alloc, row.uses)?,
        rows: List::of(claims),
        keys: List::of(Vec::new(alloc)),
        latency: latency_of(kind, params),
        cost: Cost {
            fixed: row.fixed,
            per_row: row.per_row,
        },
        place: row.place,
    })
}
