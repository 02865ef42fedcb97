ghost use Rattle.std.specs.Prelude.{◌≡◌, ◌+◌, ◌<◌, ◌≤◌, [], IfOk, OnOk, length};
ghost use Rattle.plug_api.specs.Calls.{IsLawful};
ghost use Rattle.plug_api.specs.Spec.{IsSpec};
ghost use Rattle.plug_api.specs.declared.spec.PlugSpec.{PlugSpec};
ghost use Rattle.plug_kinds.specs.declared.kind.Kind.TheVariants as kind;
ghost use Rattle.plug_kinds.specs.Kinds.{spec_of};
ghost use Rattle.part_alone.specs.Chosen.{Chosen};

use core_host::List;
use isa_table::{Claim, row_at};
use plug_api::{Plan, PlugSpec};
use stage_map::{CoreShape, Isa, Stage};
use std::alloc::{AllocError, Global};

/// A core of two stages.
const SHAPE: CoreShape = CoreShape {
    isa: Isa::Claimed,
    reset_pc: 0x8000_0000,
    stages: 2,
    commit: Stage::Execute,
};

/// The plan of a core with one entry, that of a plug-in that says this.
#[tactic(auto, using(crate::proofs::Alone::alone))]
pub(crate) fn plan_alone(alloc: Global, spec: &PlugSpec) -> Result<Plan, AllocError>
    requires { IsSpec spec.now }
    ensures lawful { IfOk result (λ plan. IsLawful spec.now plan 0) }
    ensures rows { IfOk result (λ plan. plan.rows ≡ spec.now.rows) }
{
    let PlugSpec { rows, .. } = spec.copy(alloc)?;
    let owners = vec![in alloc; 0; rows.items().len()]?;
    Ok(Plan {
        shape: SHAPE,
        picks: List::of(vec![in alloc; 0; 1]?),
        order: List::of(vec![in alloc; 0; 1]?),
        rows,
        owners: List::of(owners),
        has_csr: false,
        wanted: 0,
    })
}

/// The plan of a core with two entries: one that claims nothing, and that of a plug-in that says this.
#[tactic(auto, using(crate::proofs::Alone::first_lawful, crate::proofs::Alone::second_lawful))]
pub(crate) fn plan_of_two(alloc: Global, spec: &PlugSpec) -> Result<Plan, AllocError>
    requires { IsSpec spec.now }
    ensures first { IfOk result (λ plan. (first : PlugSpec) → first.rows ≡ [] → IsLawful first plan 0) }
    ensures second { IfOk result (λ plan. IsLawful spec.now plan 1) }
{
    let PlugSpec { rows, .. } = spec.copy(alloc)?;
    let owners = vec![in alloc; 1; rows.items().len()]?;
    Ok(Plan {
        shape: SHAPE,
        picks: List::of(vec![in alloc; 0; 2]?),
        order: List::of(vec![in alloc; 0; 2]?),
        rows,
        owners: List::of(owners),
        has_csr: false,
        wanted: 0,
    })
}

/// Claims a row of the table, behind those of rows below it.
#[tactic(auto, using(crate::proofs::Plans::one_more))]
fn claim(rows: &mut Vec<Claim>, owners: &mut Vec<u32>, row: u32) -> Result<(), AllocError>
    requires known { row < 57 }
    requires before { Chosen rows.old.items owners.old.items row }
    ensures { OnOk result (Chosen rows.new.items owners.new.items (row + 1)) }
{
    let of_table = row_at(row);
    rows.push(Claim {
        mask: of_table.mask,
        value: of_table.value,
        row,
    })?;
    owners.push(1 + row % 3)?;
    Ok(())
}

/// The claims of those rows of the table of which this number has the bit, and their entries: 1, 2 and 3 by turns.
#[tactic(auto, using(crate::proofs::Plans::skip, crate::proofs::Plans::none_yet))]
fn chosen_rows(alloc: Global, chosen: u64) -> Result<(Vec<Claim>, Vec<u32>), AllocError>
    ensures { IfOk result (λ c. Chosen c.0.items c.1.items 57) }
{
    let mut rows = Vec::new(alloc);
    let mut owners = Vec::new(alloc);
    for row in 0..57u32 {
        if (chosen >> row) & 1 == 1 {
            claim(&mut rows, &mut owners, row)?;
        }
    }
    Ok((rows, owners))
}

/// A plan of four entries whose claims are those rows of the table of which this number has the bit: that of a row is of entry 1, 2 or 3
/// by turns.
pub(crate) fn plan_of_rows(alloc: Global, chosen: u64) -> Result<Plan, AllocError>
    ensures lawful { IfOk result (λ plan. IsLawful (spec_of kind.Decoder []) plan 0) }
    ensures many { IfOk result (λ plan. length plan.rows ≤ 57) }
{
    let (rows, owners) = chosen_rows(alloc, chosen)?;
    Ok(Plan {
        shape: SHAPE,
        picks: List::of(vec![in alloc; 0; 4]?),
        order: List::of(Vec::new(alloc)),
        rows: List::of(rows),
        owners: List::of(owners),
        has_csr: true,
        wanted: 0,
    })
}
