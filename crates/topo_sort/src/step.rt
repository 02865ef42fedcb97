ghost use Rattle.std.specs.Prelude.{◌≡◌, ◌+◌, ◌^◌, ◌<◌, length, get_or, IfErr, OnOk};
ghost use Rattle.topo_sort.specs.Graph.{AreWithin, needs};
ghost use Rattle.topo_sort.specs.Ranks.{ranks};
ghost use Rattle.topo_sort.specs.Search.{IsSearch};
ghost use Rattle.topo_sort.specs.Moves.{IsStep, IsTop, Moved};
ghost use Rattle.topo_sort.specs.Stops.{IsStop};

use crate::mark::Mark;
use crate::search::Search;
use sqlite_items::Items;

/// Why there is no order.
#[derive(Clone, Copy, Debug, PartialEq, Eq)]
pub enum Stop {
    /// This node leads to itself.
    Loop { node: u32 },
    /// Memory ran out.
    NoMemory,
}

/// What a search does next at the last node of its path.
#[derive(Clone, Copy, Debug, PartialEq, Eq)]
pub enum Step {
    /// All that the node needs stands in the order, so it goes there.
    Leave,
    /// The node's next need is new, so it goes on the path.
    Enter { need: u32 },
    /// The node's next need stands on the path, so that it leads to itself.
    Close { need: u32 },
    /// The node's next need stands in the order, as do so many of its needs in all.
    Pass { done: usize },
}

pub fn needs_of(edges: &[Items<u32>], node: u32) -> &[u32]
    requires { node < length edges.now }
    ensures { result.now ≡ needs edges.now node }
{
    edges[node as usize].as_slice()
}

/// The next step.
pub fn step_of(edges: &[Items<u32>], search: &Search, top: u32) -> Step
    requires within { AreWithin edges.now }
    requires search { IsSearch edges.now search.now }
    requires top { top < length edges.now }
    ensures { IsStep edges.now (ranks search.now) search.now.done.items top result }
{
    let needs = needs_of(edges, top);
    let done = search.done(top);
    if done >= needs.len() {
        return Step::Leave;
    }
    let need = needs[done];
    match search.mark(need) {
        Mark::New => Step::Enter { need },
        Mark::Open => Step::Close { need },
        Mark::Placed { .. } => Step::Pass { done: done + 1 },
    }
}

/// Makes the next step.
pub fn advance(edges: &[Items<u32>], search: &mut Search, top: u32) -> Result<(), Stop>
    requires within { AreWithin edges.now }
    requires few { length edges.now < 2 ^ 32 }
    requires search { IsSearch edges.now search.old }
    requires top { IsTop search.old.path.items top }
    ensures moved { OnOk result (Moved edges.now search.old search.new) }
    ensures stop { IfErr result (λ s. IsStop edges.now s) }
{
    match step_of(edges, search, top) {
        Step::Leave => match search.leave(top) {
            Ok(()) => Ok(()),
            Err(_) => Err(Stop::NoMemory),
        },
        Step::Enter { need } => match search.enter(need) {
            Ok(()) => Ok(()),
            Err(_) => Err(Stop::NoMemory),
        },
        Step::Close { need } => Err(Stop::Loop { node: need }),
        Step::Pass { done } => {
            search.pass(top, done);
            Ok(())
        }
    }
}
