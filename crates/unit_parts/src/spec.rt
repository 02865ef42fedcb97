ghost use Rattle.std.specs.Prelude.{◌≡◌, ℕ, ◌<◌, ◌≤◌, IfOk, get_or, length, map, true};
ghost use Rattle.plug_api.specs.Spec.{IsSpec};
ghost use Rattle.plug_kinds.specs.Kinds.{claim_of};
ghost use Rattle.unit_parts.specs.Says.{are_unit_rows, unit_spec};

use core_host::{List, Name};
use isa_table::{Claim, row_at};
use plug_api::{Cost, Place, PlugSpec};
use service_reg::Service;
use std::alloc::{AllocError, Global};

/// The claims of rows of the instruction table.
fn claims_of(alloc: Global, rows: &[u32]) -> Result<Vec<Claim>, AllocError>
    requires { (i : ℕ) → i < length rows.now → get_or rows.now i 0 < 57 }
    ensures { IfOk result (λ c. c.items ≡ map claim_of rows.now) }
{
    let mut claims = Vec::new(alloc);
    for k in 0..rows.len() {
        let row = row_at(rows[k]);
        claims.push(Claim {
            mask: row.mask,
            value: row.value,
            row: row.index,
        })?;
    }
    Ok(claims)
}

/// What a unit without state says of itself that takes these rows, by their numbers and in the order of the table, is done in the
/// cycle in which it is asked, and makes at most `fixed` things.
///
/// # Errors
/// `AllocError` where memory was refused.

pub fn unit_spec(
    alloc: Global,
    name: &'static str,
    rows: &[u32],
    fixed: u32,
) -> Result<PlugSpec, AllocError>
    requires rows { are_unit_rows rows.now ≡ true }
    requires fixed { fixed ≤ 65535 }
    ensures says { IfOk result (λ s. s ≡ unit_spec name.now rows.now fixed) }
    ensures is_spec { IfOk result IsSpec }
{
    Ok(PlugSpec {
        name: Name::of(String::from_str(alloc, name)?),
        offers: List::of(Vec::from_slice(alloc, &[Service::Exec])?),
        needs: List::of(Vec::new(alloc)),
        uses: List::of(Vec::new(alloc)),
        rows: List::of(claims_of(alloc, rows)?),
        keys: List::of(Vec::new(alloc)),
        latency: (1, 0),
        cost: Cost { fixed, per_row: 0 },
        place: Place::Execute,
    })
}
