ghost use Rattle.std.specs.Prelude.{◌≡◌, ℕ, List, [], ◌∷◌, ◌++◌, ◌+◌, ◌<◌, ◌≤◌, ◌^◌, Option, IfOk, get_or, length, vec_len};
ghost use Rattle.verilog_mean.specs.Plain.{Item as PlainItem};
ghost use Rattle.verilog_mean.specs.Erase.{plain_item, plain_items};
ghost use Rattle.verilog_flat.specs.declared.node.Node.{Node};
ghost use Rattle.verilog_flat.specs.Builds.{IsSameRoom};
ghost use Rattle.verilog_flat.specs.Flat.{values};
ghost use Rattle.verilog_flat.specs.Writes.{AreWrites, IsWrite, write_one};
ghost use Rattle.verilog_resolve.specs.declared.names.Place.{Place};
ghost use Rattle.verilog_resolve.specs.Means.{Matches};
ghost use Rattle.verilog_resolve.specs.Names.{IsIn, places};
ghost use Rattle.verilog_sim.specs.Bindings.{AreSized, IsSized};
ghost use Rattle.verilog_sim.specs.Puts.{HavePut, IsPut, PutsDone, put_one};
ghost use Rattle.verilog_sim.specs.Rooms.{cell_count};
ghost use Rattle.verilog_sim.specs.Stmts.{writing};
ghost use Rattle.verilog_sim.specs.StmtTables.{stmt_at};

use crate::held::held_of;
use crate::stmts::Stmts;
use std::alloc::{AllocError, Global};
use verilog_flat::{ArrayWrite, Build};
use verilog_resolve::{Names, flatten};
use verilog_tree::{Item, Stmt};

/// Appends the nodes of an array's write.
fn array_write(
    name: &str,
    stmts: &Stmts,
    base: u32,
    size: u32,
    names: &Names,
    build: &mut Build,
) -> Result<ArrayWrite, AllocError>
    requires put { IsPut (places names.now) (stmt_at stmts.now name.now) }
    requires room { base + size ≤ build.old.cells }
    requires scope { (x : List ℕ) → IsIn (vec_len build.old.nodes) build.old.cells (places names.now x) }
    ensures value { IfOk result (λ p. (regs cells ins : List ℕ) (w : List ℕ → ℕ) (arrays : List ℕ → List ℕ) (val : List ℕ → ℕ)
        → ((x : List ℕ) → Matches regs cells ins w arrays val build.old.nodes.items x (places names.now x))
        → (held : List ℕ) → write_one (values regs cells ins build.new.nodes.items) p held ≡ put_one w arrays val (writing (stmt_at stmts.now name.now)) base size held) }
    ensures kept { IfOk result (λ p. (regs cells ins : List ℕ) (w : List ℕ → ℕ) (arrays : List ℕ → List ℕ) (val : List ℕ → ℕ)
        → ((x : List ℕ) → Matches regs cells ins w arrays val build.old.nodes.items x (places names.now x))
        → (j : ℕ) → j < length build.old.nodes.items → get_or (values regs cells ins build.new.nodes.items) j 0 ≡ get_or (values regs cells ins build.old.nodes.items) j 0) }
    ensures within { IfOk result (λ p. IsWrite (vec_len build.new.nodes) build.new.cells p) }
    ensures longer { IfOk result (λ p. vec_len build.old.nodes ≤ vec_len build.new.nodes) }
    ensures scope { IfOk result (λ p. (x : List ℕ) → IsIn (vec_len build.new.nodes) build.new.cells (places names.now x)) }
    ensures same { IsSameRoom build.new build.old }
{
    match stmts.find(name) {
        Some(
            Stmt::Write {
                enable,
                index,
                driver,
                ..
            },
        ) => {
            let enable = flatten(enable, names, build)?;
            let index = flatten(index, names, build)?;
            let data = flatten(&driver.value, names, build)?;
            Ok(ArrayWrite {
                enable: enable.at,
                index: index.at,
                data: data.at,
                base,
                size,
            })
        }
        _ => unreachable!(),
    }
}

/// Appends an item's write, where the item is an array that begins at the cell `base`, and answers where
/// the next array begins.
fn push_write(
    item: &Item,
    base: u32,
    stmts: &Stmts,
    names: &Names,
    build: &mut Build,
    writes: &mut Vec<ArrayWrite>,
) -> Result<u32, AllocError>
    requires sized { IsSized (plain_item item.now) }
    requires have { HavePut (places names.now) (stmt_at stmts.now) (plain_item item.now ∷ []) }
    requires room { base + cell_count (plain_item item.now ∷ []) ≤ build.old.cells }
    requires few { build.old.cells < 2 ^ 32 }
    requires scope { (x : List ℕ) → IsIn (vec_len build.old.nodes) build.old.cells (places names.now x) }
    requires below { AreWrites (vec_len build.old.nodes) build.old.cells writes.old.items }
    ensures base { IfOk result (λ n. n ≡ base + cell_count (plain_item item.now ∷ [])) }
    ensures done { IfOk result (λ n. (items rest : List PlainItem) (ns : List Node)
        → PutsDone (stmt_at stmts.now) (places names.now) items (plain_item item.now ∷ rest) base ns build.old.nodes.items writes.old.items
        → PutsDone (stmt_at stmts.now) (places names.now) items rest n ns build.new.nodes.items writes.new.items) }
    ensures below { IfOk result (λ n. AreWrites (vec_len build.new.nodes) build.new.cells writes.new.items) }
    ensures longer { IfOk result (λ n. vec_len build.old.nodes ≤ vec_len build.new.nodes) }
    ensures scope { IfOk result (λ n. (x : List ℕ) → IsIn (vec_len build.new.nodes) build.new.cells (places names.now x)) }
    ensures same { IsSameRoom build.new build.old }
{
    let Some(held) = held_of(item) else {
        return Ok(base);
    };
    match held.cells {
        None => Ok(base),
        Some(size) => {
            let write = array_write(held.name, stmts, base, size, names, build)?;
            writes.push(write)?;
            Ok(base + size)
        }
    }
}

/// The writes of arrays, in order.
pub fn array_writes(
    alloc: Global,
    items: &[Item],
    stmts: &Stmts,
    names: &Names,
    build: &mut Build,
) -> Result<Vec<ArrayWrite>, AllocError>
    requires sized { AreSized (plain_items items.now) }
    requires have { HavePut (places names.now) (stmt_at stmts.now) (plain_items items.now) }
    requires room { cell_count (plain_items items.now) ≤ build.old.cells }
    requires few { build.old.cells < 2 ^ 32 }
    requires scope { (x : List ℕ) → IsIn (vec_len build.old.nodes) build.old.cells (places names.now x) }
    ensures done { IfOk result (λ writes. PutsDone (stmt_at stmts.now) (places names.now) (plain_items items.now) [] (cell_count (plain_items items.now)) build.old.nodes.items build.new.nodes.items writes.items) }
    ensures below { IfOk result (λ writes. AreWrites (vec_len build.new.nodes) build.new.cells writes.items) }
    ensures longer { IfOk result (λ writes. vec_len build.old.nodes ≤ vec_len build.new.nodes) }
    ensures scope { IfOk result (λ writes. (x : List ℕ) → IsIn (vec_len build.new.nodes) build.new.cells (places names.now x)) }
    ensures same { IsSameRoom build.new build.old }
{
    let mut writes = Vec::new(alloc);
    let mut base: u32 = 0;
    let mut rest = items;
    while let [item, more @ ..] = rest {
        base = push_write(item, base, stmts, names, build, &mut writes)?;
        rest = more;
    }
    Ok(writes)
}
