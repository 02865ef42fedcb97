ghost use Rattle.std.specs.Prelude.{◌≡◌, ◌<◌, ◌^◌, get_or, length, IfOk, IsTrue};
ghost use Rattle.topo_sort.specs.Graph.{AreWithin, needs, need};
ghost use Rattle.topo_sort.specs.Falls.{AreBelow, DoFall};

use crate::parts::parts_of;
use crate::step::needs_of;
use sqlite_items::Items;
use std::alloc::{AllocError, Global};

/// The rank of a node, which is 0 where there is none.
pub fn rank_in(ranks: &[u32], node: u32) -> u32
    ensures { result ≡ get_or ranks.now node 0 }
{
    match ranks.get(node as usize) {
        Some(rank) => *rank,
        None => 0,
    }
}

/// Whether all that a node needs has a rank below this one.
pub fn are_below(edges: &[Items<u32>], ranks: &[u32], node: u32, bound: u64) -> bool
    requires { node < length edges.now }
    ensures { IsTrue result → AreBelow edges.now ranks.now node bound }
{
    let needs = needs_of(edges, node);
    for i in 0..needs.len() {
        if u64::from(rank_in(ranks, needs[i])) >= bound {
            return false;
        }
    }
    true
}

/// Whether ranks do not rise along any edge.
fn do_fall(edges: &[Items<u32>], ranks: &[u32]) -> bool
    requires { length edges.now < 2 ^ 32 }
    ensures { IsTrue result → DoFall edges.now ranks.now }
{
    for node in 0..edges.len() {
        let node = node as u32;
        if !are_below(edges, ranks, node, u64::from(rank_in(ranks, node)) + 1) {
            return false;
        }
    }
    true
}

/// Ranks of the nodes that do not rise along any edge. Those of nodes that lead to each other are the same, and along all
/// other edges they fall; no clause says so, since only the time of `leads_back` rests on it.
pub fn ranks_of(alloc: Global, edges: &[Items<u32>]) -> Result<Vec<u32>, AllocError>
    requires { length edges.now < 2 ^ 32 }
    ensures { IfOk result (λ ranks. DoFall edges.now ranks.items) }
{
    let ranks = parts_of(alloc, edges)?;
    if do_fall(edges, ranks.as_slice()) {
        Ok(ranks)
    } else {
        Ok(Vec::new(alloc))
    }
}
