ghost use Rattle.std.specs.Prelude.{◌≡◌, ℕ, ◌↔◌, ◌<◌, ◌≤◌, ◌+◌, ◌*◌, ◌++◌, IsTrue, length, get_or, map, sum_by, IfOk, OnOk, MatchOption};
ghost use Rattle.plug_api.specs.Rules.{Clash, HaveNoClash, IsFirstClash, IsFirstClashAt, HaveAllRows, IsFirstMissing, HaveNoExtra, IsFirstExtra, IsClaimed, is_named, multiplies, has_registers, has_fence, is_of, is_extra, no_owned, owned_by, claims_of, wanted_by, cost_at};
ghost use Rattle.plug_api.specs.Spec.{IsSpec, no_spec};

use crate::PlugSpec;
use isa_table::{Claim, claims_overlap};
use stage_map::Isa;
use std::alloc::{AllocError, Global};

/// A claim with the number of its entry.
#[derive(Clone, Copy, Debug)]
pub struct OwnedClaim {
    pub entry: u32,
    pub claim: Claim,
}

/// Appends the claims of one entry.
fn push_claims(
    claims: &mut Vec<OwnedClaim>,
    entry: u32,
    rows: &Vec<Claim>,
) -> Result<(), AllocError>
    ensures { OnOk result (claims.new.items ≡ claims.old.items ++ map (owned_by entry) rows.now.items) }
{
    for k in 0..rows.len() {
        claims.push(OwnedClaim {
            entry,
            claim: rows[k],
        })?;
    }
    Ok(())
}

/// The claims of all entries, in their order.
pub(crate) fn claims_of(alloc: Global, specs: &Vec<PlugSpec>) -> Result<Vec<OwnedClaim>, AllocError>
    requires few { length specs.now.items ≤ 32 }
    ensures { IfOk result (λ c. c.items ≡ claims_of specs.now.items) }
{
    let mut claims = Vec::new(alloc);
    for entry in 0..specs.len() {
        push_claims(&mut claims, entry as u32, specs[entry].rows.items())?;
    }
    Ok(claims)
}

/// Whether the claims at these places are of two entries, and some word meets both.
fn do_clash(claims: &Vec<OwnedClaim>, a: usize, b: usize) -> bool
    requires in_order { a < b }
    requires there { b < length claims.now.items }
    ensures { IsTrue result ↔ Clash claims.now.items a b }
{
    claims[a].entry != claims[b].entry && claims_overlap(claims[a].claim, claims[b].claim)
}

/// The first claim behind this one that clashes with it.
fn clash_of(claims: &Vec<OwnedClaim>, a: usize) -> Option<usize>
    requires there { a < length claims.now.items }
    ensures { MatchOption result ((j : ℕ) → Clash claims.now.items a j → ⊥)
        (λ b. Clash claims.now.items a b × ((j : ℕ) → j < b → Clash claims.now.items a j → ⊥)) }
{
    for b in a + 1..claims.len() {
        if do_clash(claims, a, b) {
            return Some(b);
        }
    }
    None
}

/// The places of the first pair of claims that clash.
pub(crate) fn clash(claims: &Vec<OwnedClaim>) -> Option<(usize, usize)>
    ensures { MatchOption result (HaveNoClash claims.now.items) (λ p. IsFirstClashAt claims.now.items p.0 p.1) }
{
    for a in 0..claims.len() {
        if let Some(b) = clash_of(claims, a) {
            return Some((a, b));
        }
    }
    None
}

/// Whether this is a named set, and no mere "what is claimed".
fn is_named(isa: Isa) -> bool
    ensures { result ≡ is_named isa }
{
    isa != Isa::Claimed
}

/// Whether the set has the extension M.
fn multiplies(isa: Isa) -> bool
    ensures { result ≡ multiplies isa }
{
    matches!(
        isa,
        Isa::Rv32im | Isa::Rv32imZicsr | Isa::Rv32imZifencei | Isa::Rv32imZicsrZifencei
    )
}

/// Whether the set has the extension Zicsr.
fn has_registers(isa: Isa) -> bool
    ensures { result ≡ has_registers isa }
{
    matches!(
        isa,
        Isa::Rv32iZicsr | Isa::Rv32iZicsrZifencei | Isa::Rv32imZicsr | Isa::Rv32imZicsrZifencei
    )
}

/// Whether the set has the extension Zifencei.
fn has_fence(isa: Isa) -> bool
    ensures { result ≡ has_fence isa }
{
    matches!(
        isa,
        Isa::Rv32iZifencei
            | Isa::Rv32iZicsrZifencei
            | Isa::Rv32imZifencei
            | Isa::Rv32imZicsrZifencei
    )
}

/// Whether a row is of the named set.
fn is_of(isa: Isa, row: u32) -> bool
    ensures { result ≡ is_of isa row }
{
    (is_named(isa) && row < 38)
        || (has_fence(isa) && row == 40)
        || (multiplies(isa) && 41 <= row && row < 49)
        || (has_registers(isa) && 49 <= row && row < 57)
}

/// Whether some entry claims the row.
fn is_claimed(claims: &Vec<OwnedClaim>, row: u32) -> bool
    ensures { IsTrue result ↔ IsClaimed claims.now.items row }
{
    for k in 0..claims.len() {
        if claims[k].claim.row == row {
            return true;
        }
    }
    false
}

/// The first row of the named set that no entry claims.
pub(crate) fn missing(isa: Isa, claims: &Vec<OwnedClaim>) -> Option<u32>
    ensures { MatchOption result (HaveAllRows isa claims.now.items) (λ row. IsFirstMissing isa claims.now.items row) }
{
    for row in 0..57u32 {
        if is_of(isa, row) && !is_claimed(claims, row) {
            return Some(row);
        }
    }
    None
}

/// Whether a claim of this row is one too many.
fn is_extra(isa: Isa, row: u32) -> bool
    ensures { result ≡ is_extra isa row }
{
    (is_named(isa) && row < 64 && !is_of(isa, row)) || row == 38 || row == 39
}

/// The first claim that is one too many: its entry and its row.
pub(crate) fn extra(isa: Isa, claims: &Vec<OwnedClaim>) -> Option<(u32, u32)>
    ensures { MatchOption result (HaveNoExtra isa claims.now.items) (λ p. IsFirstExtra isa claims.now.items p.0 p.1) }
{
    for k in 0..claims.len() {
        let owned = claims[k];
        if is_extra(isa, owned.claim.row) {
            return Some((owned.entry, owned.claim.row));
        }
    }
    None
}

/// How many things the module may have, where the entries claim so many rows.
pub(crate) fn wanted(specs: &Vec<PlugSpec>, rows: u32) -> u64
    requires few { length specs.now.items ≤ 32 }
    requires few_rows { rows ≤ 2048 }
    requires specs { (i : ℕ) → i < length specs.now.items → IsSpec (get_or specs.now.items i no_spec) }
    ensures { result ≡ 8192 + 256 * length specs.now.items + sum_by (cost_at rows) specs.now.items }
{
    let mut wanted = 8192 + 256 * specs.len() as u64;
    for entry in 0..specs.len() {
        wanted += cost_at(&specs[entry], rows);
    }
    wanted
}

/// How many things an entry may make where the core claims so many rows.
fn cost_at(spec: &PlugSpec, rows: u32) -> u64
    requires few_rows { rows ≤ 2048 }
    requires spec { IsSpec spec.now }
    ensures cost { result ≡ cost_at rows spec.now }
    ensures few { result ≤ 600000 }
{
    spec.cost.fixed as u64 + spec.cost.per_row as u64 * rows as u64
}
