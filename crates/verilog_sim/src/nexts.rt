ghost use Rattle.std.specs.Prelude.{◌≡◌, ℕ, List, [], ◌∷◌, ◌+◌, ◌<◌, ◌≤◌, Option, IfOk, get_or, length, vec_len};
ghost use Rattle.verilog_mean.specs.Plain.{Item as PlainItem};
ghost use Rattle.verilog_mean.specs.Cycle.{next_reg, reset_name};
ghost use Rattle.verilog_mean.specs.Erase.{plain_item, plain_items};
ghost use Rattle.verilog_flat.specs.declared.node.Node.{Node};
ghost use Rattle.verilog_flat.specs.Builds.{IsSameRoom};
ghost use Rattle.verilog_flat.specs.Flat.{AllBelow, values};
ghost use Rattle.verilog_resolve.specs.declared.names.Place.{Place};
ghost use Rattle.verilog_resolve.specs.Means.{Matches};
ghost use Rattle.verilog_resolve.specs.Names.{IsIn, places};
ghost use Rattle.verilog_sim.specs.Layouts.{register_names};
ghost use Rattle.verilog_sim.specs.Bindings.{AreSized, IsSized};
ghost use Rattle.verilog_sim.specs.Nexts.{HaveNext, IsNext, NextsDone};
ghost use Rattle.verilog_sim.specs.Stmts.{clocked};
ghost use Rattle.verilog_sim.specs.StmtTables.{stmt_at};

use crate::held::held_of;
use crate::stmts::Stmts;
use std::alloc::{AllocError, Global};
use verilog_flat::Build;
use verilog_resolve::{Names, flatten, push_restart};
use verilog_tree::{Item, Stmt};

/// Appends the nodes of a register's next value, and answers the one that has it.
fn next_node(name: &str, stmts: &Stmts, names: &Names, build: &mut Build) -> Result<u32, AllocError>
    requires next { IsNext (places names.now) (stmt_at stmts.now name.now) }
    requires scope { (x : List ℕ) → IsIn (vec_len build.old.nodes) build.old.cells (places names.now x) }
    ensures value { IfOk result (λ at. (regs cells ins : List ℕ) (w : List ℕ → ℕ) (arrays : List ℕ → List ℕ) (val : List ℕ → ℕ)
        → ((x : List ℕ) → Matches regs cells ins w arrays val build.old.nodes.items x (places names.now x))
        → (old : ℕ) → get_or (values regs cells ins build.new.nodes.items) at 0 ≡ next_reg w arrays val (val reset_name) old (clocked (stmt_at stmts.now name.now))) }
    ensures kept { IfOk result (λ at. (regs cells ins : List ℕ) (w : List ℕ → ℕ) (arrays : List ℕ → List ℕ) (val : List ℕ → ℕ)
        → ((x : List ℕ) → Matches regs cells ins w arrays val build.old.nodes.items x (places names.now x))
        → (j : ℕ) → j < length build.old.nodes.items → get_or (values regs cells ins build.new.nodes.items) j 0 ≡ get_or (values regs cells ins build.old.nodes.items) j 0) }
    ensures within { IfOk result (λ at. at < vec_len build.new.nodes) }
    ensures longer { IfOk result (λ at. vec_len build.old.nodes ≤ vec_len build.new.nodes) }
    ensures scope { IfOk result (λ at. (x : List ℕ) → IsIn (vec_len build.new.nodes) build.new.cells (places names.now x)) }
    ensures same { IsSameRoom build.new build.old }
{
    match stmts.find(name) {
        Some(Stmt::Next { driver, .. }) => {
            let found = flatten(&driver.value, names, build)?;
            Ok(found.at)
        }
        Some(Stmt::Reset { start, driver, .. }) => {
            push_restart(start.value, &driver.value, names, build)
        }
        _ => unreachable!(),
    }
}

/// Appends the node of an item's next value, where the item is a register.
fn push_next(
    item: &Item,
    stmts: &Stmts,
    names: &Names,
    build: &mut Build,
    next: &mut Vec<u32>,
) -> Result<(), AllocError>
    requires sized { IsSized (plain_item item.now) }
    requires have { HaveNext (places names.now) (stmt_at stmts.now) (plain_item item.now ∷ []) }
    requires scope { (x : List ℕ) → IsIn (vec_len build.old.nodes) build.old.cells (places names.now x) }
    requires below { AllBelow (vec_len build.old.nodes) next.old.items }
    ensures done { IfOk result (λ d. (items rest : List PlainItem) (ns : List Node)
        → NextsDone (stmt_at stmts.now) (places names.now) items (plain_item item.now ∷ rest) ns build.old.nodes.items next.old.items
        → NextsDone (stmt_at stmts.now) (places names.now) items rest ns build.new.nodes.items next.new.items) }
    ensures below { IfOk result (λ d. AllBelow (vec_len build.new.nodes) next.new.items) }
    ensures room { IfOk result (λ d. (rest : List PlainItem) → vec_len next.new + length (register_names rest) ≡ vec_len next.old + length (register_names (plain_item item.now ∷ rest))) }
    ensures longer { IfOk result (λ d. vec_len build.old.nodes ≤ vec_len build.new.nodes) }
    ensures scope { IfOk result (λ d. (x : List ℕ) → IsIn (vec_len build.new.nodes) build.new.cells (places names.now x)) }
    ensures same { IsSameRoom build.new build.old }
{
    let Some(held) = held_of(item) else {
        return Ok(());
    };
    match held.cells {
        None => {
            let at = next_node(held.name, stmts, names, build)?;
            next.push(at)?;
            Ok(())
        }
        Some(_) => Ok(()),
    }
}

/// The nodes of the next values of registers, in order.
pub fn next_nodes(
    alloc: Global,
    items: &[Item],
    stmts: &Stmts,
    names: &Names,
    build: &mut Build,
) -> Result<Vec<u32>, AllocError>
    requires sized { AreSized (plain_items items.now) }
    requires have { HaveNext (places names.now) (stmt_at stmts.now) (plain_items items.now) }
    requires scope { (x : List ℕ) → IsIn (vec_len build.old.nodes) build.old.cells (places names.now x) }
    ensures done { IfOk result (λ next. NextsDone (stmt_at stmts.now) (places names.now) (plain_items items.now) [] build.old.nodes.items build.new.nodes.items next.items) }
    ensures below { IfOk result (λ next. AllBelow (vec_len build.new.nodes) next.items) }
    ensures room { IfOk result (λ next. vec_len next ≡ length (register_names (plain_items items.now))) }
    ensures longer { IfOk result (λ next. vec_len build.old.nodes ≤ vec_len build.new.nodes) }
    ensures scope { IfOk result (λ next. (x : List ℕ) → IsIn (vec_len build.new.nodes) build.new.cells (places names.now x)) }
    ensures same { IsSameRoom build.new build.old }
{
    let mut next = Vec::new(alloc);
    let mut rest = items;
    while let [item, more @ ..] = rest {
        push_next(item, stmts, names, build, &mut next)?;
        rest = more;
    }
    Ok(next)
}
