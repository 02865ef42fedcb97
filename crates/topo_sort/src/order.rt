ghost use Rattle.std.specs.Prelude.{◌≡◌, ℕ, ◌^◌, ◌<◌, [], length, get_or, IfOk, IfErr, OnOk};
ghost use Rattle.topo_sort.specs.Graph.{AreWithin};
ghost use Rattle.topo_sort.specs.Order.{IsOrder};
ghost use Rattle.topo_sort.specs.Ranks.{ranks, IsSeen};
ghost use Rattle.topo_sort.specs.Search.{IsSearch};
ghost use Rattle.topo_sort.specs.Stops.{IsStop};

use crate::mark::Mark;
use crate::search::Search;
use crate::step::{Stop, advance};
use sqlite_items::Items;
use std::alloc::Global;

/// Follows the edges from the nodes of the path until it is empty.
fn follow(edges: &[Items<u32>], search: &mut Search) -> Result<(), Stop>
    requires within { AreWithin edges.now }
    requires few { length edges.now < 2 ^ 32 }
    requires search { IsSearch edges.now search.old }
    ensures search { OnOk result (IsSearch edges.now search.new) }
    ensures path { OnOk result (search.new.path.items ≡ []) }
    ensures seen { OnOk result ((x : ℕ) → IsSeen search.old x → IsSeen search.new x) }
    ensures stop { IfErr result (λ s. IsStop edges.now s) }
{
    while let Some(&top) = search.path.last() {
        advance(edges, search, top)?;
    }
    Ok(())
}

/// Follows the edges from a node, where it is new.
fn visit(edges: &[Items<u32>], search: &mut Search, root: u32) -> Result<(), Stop>
    requires within { AreWithin edges.now }
    requires few { length edges.now < 2 ^ 32 }
    requires root { root < length edges.now }
    requires search { IsSearch edges.now search.old }
    requires path { search.old.path.items ≡ [] }
    ensures search { OnOk result (IsSearch edges.now search.new) }
    ensures path { OnOk result (search.new.path.items ≡ []) }
    ensures seen { OnOk result ((x : ℕ) → IsSeen search.old x → IsSeen search.new x) }
    ensures root { OnOk result (IsSeen search.new root) }
    ensures stop { IfErr result (λ s. IsStop edges.now s) }
{
    match search.mark(root) {
        Mark::New => match search.enter(root) {
            Ok(()) => follow(edges, search),
            Err(_) => Err(Stop::NoMemory),
        },
        _ => Ok(()),
    }
}

/// An order of all nodes, in which each stands behind those that it needs. `edges` has the needs of each node.
///
/// # Errors
///
/// `Stop::Loop` with a node that leads to itself; `Stop::NoMemory`.
pub fn sort(alloc: Global, edges: &[Items<u32>]) -> Result<Vec<u32>, Stop>
    requires within { AreWithin edges.now }
    requires few { length edges.now < 2 ^ 32 }
    ensures order { IfOk result (λ order. IsOrder edges.now order.items) }
    ensures stop { IfErr result (λ s. IsStop edges.now s) }
{
    let mut search = match Search::new(alloc, edges.len()) {
        Ok(search) => search,
        Err(_) => return Err(Stop::NoMemory),
    };
    for root in 0..edges.len() {
        visit(edges, &mut search, root as u32)?;
    }
    let Search { order, .. } = search;
    Ok(order)
}
