ghost use Rattle.std.specs.Prelude.{◌≡◌, ◌≤◌, ◌<◌, ◌^◌, ◌⊎◌, ℕ, List, [], true, false, length, map, IfOk, IfErr, MatchOption};
ghost use Rattle.topo_sort.specs.Falls.{DoFall};
ghost use Rattle.topo_sort.specs.Graph.{Leads};
ghost use Rattle.verilog_mean.specs.Declarations.{declarations};
ghost use Rattle.verilog_mean.specs.Erase.{plain_tree};
ghost use Rattle.verilog_mean.specs.Loops.{Depends, FirstLoop, HasNoLoop};
ghost use Rattle.verilog_mean.specs.Names.{names_unknown};
ghost use Rattle.verilog_mean.specs.Order.{IsOrder};
ghost use Rattle.verilog_rules.specs.Collected.{declaration};
ghost use Rattle.verilog_rules.specs.Edges.{IsGraph};
ghost use Rattle.verilog_rules.specs.LoopPlace.{IsLoop, NoneBack};
ghost use Rattle.verilog_rules.specs.Sources.{item_number, number_in};

use crate::declare::{Declared, collect};
use crate::edges::edges_of;
use crate::sources::{Sources, sources_of};
use sqlite_items::Items;
use std::alloc::{AllocError, Global};
use topo_sort::{Stop, leads_back, ranks_of, sort};
use verilog_mean::MeanRefusal;
use verilog_tree::{Ident, Tree};

/// The graph of a tree's items, in which each needs those that its driver names.
fn graph_of(alloc: Global, tree: &Tree, sources: &Sources) -> Result<Vec<Items<u32>>, AllocError>
    requires { (x : List ℕ) → number_in sources.now x ≡ item_number (plain_tree tree.now) x }
    ensures { IfOk result (λ edges. IsGraph tree.now edges.items) }
{
    edges_of(alloc, tree.items.items().as_slice(), sources)
}

/// Whether a name depends on itself.
fn is_back(
    alloc: Global,
    tree: &Tree,
    sources: &Sources,
    edges: &[Items<u32>],
    ranks: &[u32],
    name: &Ident,
) -> Result<bool, AllocError>
    requires numbers { (x : List ℕ) → number_in sources.now x ≡ item_number (plain_tree tree.now) x }
    requires graph { IsGraph tree.now edges.now }
    requires ranks { DoFall edges.now ranks.now }
    ensures back { IfOk result (λ b. b ≡ true → Depends (plain_tree tree.now) name.now.text name.now.text) }
    ensures other { IfOk result (λ b. b ≡ false → Depends (plain_tree tree.now) name.now.text name.now.text → ⊥) }
{
    match sources.number(name) {
        Some(number) => leads_back(alloc, edges, ranks, number),
        None => Ok(false),
    }
}

/// The place of the first declaration whose name depends on itself.
fn first_back(
    alloc: Global,
    tree: &Tree,
    sources: &Sources,
    edges: &[Items<u32>],
    ranks: &[u32],
    all: &[Declared],
) -> Result<Option<u32>, AllocError>
    requires numbers { (x : List ℕ) → number_in sources.now x ≡ item_number (plain_tree tree.now) x }
    requires graph { IsGraph tree.now edges.now }
    requires ranks { DoFall edges.now ranks.now }
    ensures { IfOk result (λ o. MatchOption o (NoneBack (plain_tree tree.now) (map declaration all.now))
        (λ at. FirstLoop (plain_tree tree.now) (map declaration all.now) at)) }
{
    let mut rest = all;
    while let [d, more @ ..] = rest {
        if is_back(alloc, tree, sources, edges, ranks, d.name)? {
            return Ok(Some(d.name.at));
        }
        rest = more;
    }
    Ok(None)
}

/// The refusal of a tree whose graph has a loop.
fn loop_of(
    alloc: Global,
    tree: &Tree,
    sources: &Sources,
    edges: &[Items<u32>],
) -> Result<u32, AllocError>
    requires known { names_unknown tree.now ≡ [] }
    requires numbers { (x : List ℕ) → number_in sources.now x ≡ item_number (plain_tree tree.now) x }
    requires graph { IsGraph tree.now edges.now }
    requires few { length edges.now < 2 ^ 32 }
    requires looped { (n : ℕ) × Leads edges.now n n }
    ensures { IfOk result (λ at. FirstLoop (plain_tree tree.now) (declarations tree.now) at) }
{
    let all = collect(alloc, tree)?;
    let ranks = ranks_of(alloc, edges)?;
    match first_back(
        alloc,
        tree,
        sources,
        edges,
        ranks.as_slice(),
        all.as_slice(),
    )? {
        Some(at) => Ok(at),
        None => unreachable!(),
    }
}

/// Ninth rule: no wire depends on itself. Answers the items by their numbers, each driver behind those that it needs.
///
/// # Errors
///
/// `MeanRefusal::Loop` with the place of the first declaration whose name depends on itself; `MeanRefusal::NoMemory`.
pub fn order_items(alloc: Global, tree: &Tree) -> Result<Vec<u32>, MeanRefusal>
    requires few { length tree.now.items ≤ 2 ^ 24 }
    requires known { names_unknown tree.now ≡ [] }
    ensures order { IfOk result (λ order. IsOrder (plain_tree tree.now) order.items) }
    ensures no_loop { IfOk result (λ _. HasNoLoop (plain_tree tree.now)) }
    ensures place { IfErr result (λ r. (r ≡ MeanRefusal.NoMemory) ⊎ IsLoop tree.now r) }
{
    let sources = match sources_of(alloc, tree) {
        Ok(sources) => sources,
        Err(_) => return Err(MeanRefusal::NoMemory),
    };
    let edges = match graph_of(alloc, tree, &sources) {
        Ok(edges) => edges,
        Err(_) => return Err(MeanRefusal::NoMemory),
    };
    match sort(alloc, edges.as_slice()) {
        Ok(order) => Ok(order),
        Err(Stop::Loop { .. }) => match loop_of(alloc, tree, &sources, edges.as_slice()) {
            Ok(at) => Err(MeanRefusal::Loop { at }),
            Err(_) => Err(MeanRefusal::NoMemory),
        },
        Err(Stop::NoMemory) => Err(MeanRefusal::NoMemory),
    }
}
