ghost use Rattle.std.specs.Prelude.{◌≡◌, ◌⊎◌, ◌++◌, [], IfOk, IfErr, map};
ghost use Rattle.verilog_rules.specs.Collected.{declaration};
ghost use Rattle.verilog_mean.specs.Declarations.{declarations};
ghost use Rattle.verilog_mean.specs.Names.{names_twice, bad_sizes};
ghost use Rattle.verilog_mean.specs.Kinds.{kinds_differ};
ghost use Rattle.verilog_mean.specs.Widths.{selects_outside, widths_differ};
ghost use Rattle.verilog_mean.specs.Bounds.{IsBounded};
ghost use Rattle.verilog_mean.specs.Drivers.{drivers_twice, drivers_missing};
ghost use Rattle.verilog_mean.specs.Checked.{IsChecked};
ghost use Rattle.verilog_mean.specs.Sound.{IsSound};
ghost use Rattle.verilog_rules.specs.Refusals.{refusals, IsFirstRefusal};
ghost use Rattle.verilog_rules.specs.First.{first, Refuses};

use crate::declare::{Declared, collect};
use crate::loops::order_items;
use crate::once::table_of;
use crate::ports::names_unknown;
use crate::table::Table;
use crate::{drivers, kinds, selects, sizes, widths};
use std::alloc::Global;
use verilog_mean::{Checked, MeanRefusal};
use verilog_tree::Tree;

/// The declarations of a tree, in the order of the text and by their names.
#[derive(Drop)]
pub struct Declarations<'a> {
    pub all: Vec<Declared<'a>>,
    pub table: Table<'a>,
}

/// First rule: no name is declared again.
pub fn declare(alloc: Global, tree: &Tree) -> Result<Declarations<'_>, MeanRefusal>
    ensures all { IfOk result (λ d. map declaration d.all.items ≡ declarations tree.now) }
    ensures table { IfOk result (λ d. d.table ≡ declarations tree.now) }
    ensures sound { IfOk result (λ _. names_twice tree.now ≡ []) }
    ensures refused { IfErr result (λ r. Refuses r (names_twice tree.now)) }
{
    let all = match collect(alloc, tree) {
        Ok(all) => all,
        Err(_) => return Err(MeanRefusal::NoMemory),
    };
    let table = match table_of(alloc, all.as_slice()) {
        Ok(table) => table,
        Err(refusal) => return Err(refusal),
    };
    Ok(Declarations { all, table })
}

/// Second rule: the first number of a range or of an array's cells that may not stand there.
pub fn bad_sizes(tree: &Tree, all: &[Declared]) -> Option<MeanRefusal>
    requires { map declaration all.now ≡ declarations tree.now }
    ensures { result ≡ first (bad_sizes tree.now) }
{
    sizes::bad_sizes(all)
}

/// Fourth rule: the first name that is of another kind.
#[tactic(auto, using(crate::proofs::WholeTree::kinds_whole))]
pub fn kinds_differ(tree: &Tree, table: &Table) -> Option<MeanRefusal>
    requires { table.now ≡ declarations tree.now }
    ensures { result ≡ first (kinds_differ tree.now) }
{
    kinds::in_items(tree.items.items().as_slice(), table)
}

/// Fifth rule: the first selection of bits that the name has not.
#[tactic(auto, using(crate::proofs::WholeTree::selects_whole, crate::proofs::WholeTree::small))]
pub fn selects_outside(tree: &Tree, table: &Table) -> Option<MeanRefusal>
    requires table { table.now ≡ declarations tree.now }
    requires sizes { bad_sizes tree.now ≡ [] }
    ensures { result ≡ first (selects_outside tree.now) }
{
    selects::in_items(tree.items.items().as_slice(), table)
}

/// Sixth rule: the first of two widths that are to be equal and differ.
#[tactic(auto, using(crate::proofs::WholeTree::widths_whole, crate::proofs::WholeTree::small, crate::proofs::BitsFew::tree_few))]
pub fn widths_differ(tree: &Tree, table: &Table) -> Option<MeanRefusal>
    requires bounded { IsBounded tree.now }
    requires table { table.now ≡ declarations tree.now }
    requires sizes { bad_sizes tree.now ≡ [] }
    requires selects { selects_outside tree.now ≡ [] }
    ensures { result ≡ first (widths_differ tree.now) }
{
    widths::in_items(tree.items.items().as_slice(), table)
}

/// Seventh and eighth rule: each name that needs a driver has one driver.
pub fn drivers(alloc: Global, tree: &Tree, all: &[Declared]) -> Result<(), MeanRefusal>
    requires { map declaration all.now ≡ declarations tree.now }
    ensures once { IfOk result (λ _. drivers_twice tree.now ≡ []) }
    ensures driven { IfOk result (λ _. drivers_missing tree.now ≡ []) }
    ensures refused { IfErr result (λ r. Refuses r (drivers_twice tree.now ++ drivers_missing tree.now)) }
{
    let driven = match drivers::driven_of(alloc, tree.items.items().as_slice()) {
        Ok(driven) => driven,
        Err(refusal) => return Err(refusal),
    };
    match drivers::undriven(all, &driven) {
        Some(refusal) => Err(refusal),
        None => Ok(()),
    }
}

/// The first eight rules, in their order.
#[tactic(auto, using(crate::proofs::Refused::no_refusals))]
fn check_rules(alloc: Global, tree: &Tree) -> Result<(), MeanRefusal>
    requires { IsBounded tree.now }
    ensures sound { IfOk result (λ _. refusals tree.now ≡ []) }
    ensures refused { IfErr result (λ r. Refuses r (refusals tree.now)) }
{
    let found = match declare(alloc, tree) {
        Ok(found) => found,
        Err(refusal) => return Err(refusal),
    };
    match bad_sizes(tree, found.all.as_slice()) {
        Some(refusal) => return Err(refusal),
        None => {}
    }
    match names_unknown(alloc, tree) {
        Ok(()) => {}
        Err(refusal) => return Err(refusal),
    }
    match kinds_differ(tree, &found.table) {
        Some(refusal) => return Err(refusal),
        None => {}
    }
    match selects_outside(tree, &found.table) {
        Some(refusal) => return Err(refusal),
        None => {}
    }
    match widths_differ(tree, &found.table) {
        Some(refusal) => return Err(refusal),
        None => {}
    }
    drivers(alloc, tree, found.all.as_slice())
}

/// Checks that a tree is sound, by the nine rules in their order.
///
/// # Errors
///
/// The first refusal of the first rule that refuses the tree; `MeanRefusal::NoMemory`.
#[tactic(auto, using(crate::proofs::Refused::loop_not_sound, crate::proofs::Refused::loop_first, crate::proofs::Refused::names_known, crate::proofs::BitsFew::few_items))]
pub fn check_tree(alloc: Global, tree: Tree) -> Result<Checked, MeanRefusal>
    requires { IsBounded tree }
    ensures checked { IfOk result (λ c. IsChecked c) }
    ensures same { IfOk result (λ c. c.tree ≡ tree) }
    ensures refused { IfErr result (λ r. (r ≡ MeanRefusal.NoMemory) ⊎ (IsSound tree → ⊥)) }
    ensures first { IfErr result (λ r. IsFirstRefusal tree r) }
{
    match check_rules(alloc, &tree) {
        Ok(()) => {}
        Err(refusal) => return Err(refusal),
    }
    match order_items(alloc, &tree) {
        Ok(order) => Ok(Checked { tree, order }),
        Err(refusal) => Err(refusal),
    }
}
