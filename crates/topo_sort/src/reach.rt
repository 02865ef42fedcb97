ghost use Rattle.std.specs.Prelude.{◌≡◌, ◌⊎◌, ℕ, ◌<◌, true, false, [], length, replicate, vec_len, IfOk, OnOk};
ghost use Rattle.topo_sort.specs.Graph.{AreWithin, Leads, needs, need};
ghost use Rattle.topo_sort.specs.Falls.{DoFall};
ghost use Rattle.topo_sort.specs.Reach.{Grows, IsFound, IsReached, Takes};

use crate::falls::{are_below, rank_in};
use crate::step::needs_of;
use sqlite_items::Items;
use std::alloc::{AllocError, Global};

/// The nodes that a node leads to, as far as they were found.
#[derive(Drop)]
pub struct Reached {
    /// Of each node, whether it was found.
    pub seen: Vec<bool>,
    /// Those that were found, one after another.
    pub found: Vec<u32>,
}

/// No node of so many is found.
fn none_of(alloc: Global, count: usize) -> Result<Reached, AllocError>
    ensures seen { IfOk result (λ r. r.seen.items ≡ replicate count false) }
    ensures found { IfOk result (λ r. r.found.items ≡ []) }
{
    let seen = Vec::from_elem(alloc, false, count)?;
    Ok(Reached {
        seen,
        found: Vec::new(alloc),
    })
}

/// Takes a node, where it was not found before.
fn take(reached: &mut Reached, node: u32) -> Result<(), AllocError>
    requires { node < vec_len reached.old.seen }
    ensures { OnOk result (Takes reached.old reached.new node) }
{
    if !reached.seen[node as usize] {
        reached.found.push(node)?;
        reached.seen[node as usize] = true;
    }
    Ok(())
}

/// Takes all that a node needs.
fn take_needs(edges: &[Items<u32>], reached: &mut Reached, node: u32) -> Result<(), AllocError>
    requires within { AreWithin edges.now }
    requires size { vec_len reached.old.seen ≡ length edges.now }
    requires node { node < length edges.now }
    ensures grown { OnOk result (Grows reached.old reached.new) }
    ensures needs { OnOk result ((i : ℕ) → i < length (needs edges.now node) → IsFound reached.new (need edges.now node i)) }
    ensures reached { OnOk result ((root : ℕ) → IsReached edges.now root reached.old → (root ≡ node) ⊎ Leads edges.now root node → IsReached edges.now root reached.new) }
{
    let needs = needs_of(edges, node);
    for i in 0..needs.len() {
        take(reached, needs[i])?;
    }
    Ok(())
}

/// Whether a node leads to itself. By ranks that do not rise it is told at once that a node whose needs all have lower ones
/// does not; else it takes time linear in the nodes and edges that it leads to.
pub fn leads_back(
    alloc: Global,
    edges: &[Items<u32>],
    ranks: &[u32],
    node: u32,
) -> Result<bool, AllocError>
    requires within { AreWithin edges.now }
    requires ranks { DoFall edges.now ranks.now }
    requires node { node < length edges.now }
    ensures leads { IfOk result (λ b. b ≡ true → Leads edges.now node node) }
    ensures other { IfOk result (λ b. b ≡ false → Leads edges.now node node → ⊥) }
{
    if are_below(edges, ranks, node, u64::from(rank_in(ranks, node))) {
        return Ok(false);
    }
    is_reached(alloc, edges, node)
}

/// The same by a search from the node.
fn is_reached(alloc: Global, edges: &[Items<u32>], node: u32) -> Result<bool, AllocError>
    requires within { AreWithin edges.now }
    requires node { node < length edges.now }
    ensures leads { IfOk result (λ b. b ≡ true → Leads edges.now node node) }
    ensures other { IfOk result (λ b. b ≡ false → Leads edges.now node node → ⊥) }
{
    let mut reached = none_of(alloc, edges.len())?;
    take_needs(edges, &mut reached, node)?;
    let mut at: usize = 0;
    while at < reached.found.len() {
        let next = reached.found[at];
        take_needs(edges, &mut reached, next)?;
        at += 1;
    }
    Ok(reached.seen[node as usize])
}
