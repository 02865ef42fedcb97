ghost use Rattle.std.specs.Prelude.{◌≡◌, OnOk, IfOk};
ghost use Rattle.verilog_mean.specs.Erase.{plain_item, plain_items};
ghost use Rattle.verilog_mean.specs.Order.{drive_of};
ghost use Rattle.verilog_rules.specs.Edges.{driver_of, edges_in, maybe_driver, needs_in, needs_of, with_number};
ghost use Rattle.verilog_rules.specs.Sources.{number_in};

use crate::sources::Sources;
use sqlite_items::Items;
use std::alloc::{AllocError, Global};
use verilog_tree::{Driver, Expr, Ident, Item};

/// Notes the item that a name takes its value from.
fn add_name(name: &Ident, sources: &Sources, needs: &mut Vec<u32>) -> Result<(), AllocError>
    ensures { OnOk result (needs.new.items ≡ with_number needs.old.items (number_in sources.now name.now.text)) }
{
    if let Some(number) = sources.number(name) {
        needs.push(number)?;
    }
    Ok(())
}

/// Notes the items that an expression takes its value from.
#[tactic(auto, using(crate::proofs::NeedForms::needs))]
fn add_needs(e: &Expr, sources: &Sources, needs: &mut Vec<u32>) -> Result<(), AllocError>
    ensures { OnOk result (needs.new.items ≡ needs_in (number_in sources.now) needs.old.items e.now) }
{
    match e {
        Expr::Literal(_) => Ok(()),
        Expr::Named(name) => add_name(name, sources, needs),
        Expr::Select { name, .. } => add_name(name, sources, needs),
        Expr::Cell { index, .. } => add_needs(index.get(), sources, needs),
        Expr::Paren { inner, .. } => add_needs(inner.get(), sources, needs),
        Expr::Not { inner, .. } => add_needs(inner.get(), sources, needs),
        Expr::Join { parts, .. } => {
            for part in parts.as_slice() {
                add_needs(part, sources, needs)?;
            }
            Ok(())
        }
        Expr::Binary { left, right, .. } => {
            add_needs(left.get(), sources, needs)?;
            add_needs(right.get(), sources, needs)
        }
        Expr::Choice { test, yes, no, .. } => {
            add_needs(test.get(), sources, needs)?;
            add_needs(yes.get(), sources, needs)?;
            add_needs(no.get(), sources, needs)
        }
    }
}

/// The driver of a wire or an output that an item has.
fn driver(item: &Item) -> Option<&Driver>
    ensures { maybe_driver result ≡ driver_of item.now }
{
    match item {
        Item::Wire { driver, .. } => driver.as_ref(),
        Item::Assign { driver, .. } => Some(driver),
        _ => None,
    }
}

/// The items that an item takes the value of its wire or output from.
#[tactic(auto, using(crate::proofs::NeedForms::none_driven, crate::proofs::NeedForms::one_driven))]
fn needs_of(alloc: Global, item: &Item, sources: &Sources) -> Result<Items<u32>, AllocError>
    ensures { IfOk result (λ needs. needs ≡ needs_of (number_in sources.now) (drive_of (plain_item item.now))) }
{
    let mut needs = Vec::new(alloc);
    if let Some(driver) = driver(item) {
        add_needs(&driver.value, sources, &mut needs)?;
    }
    Ok(Items::from_vec(needs))
}

/// For each item those that it takes the value of its wire or output from.
pub fn edges_of(
    alloc: Global,
    items: &[Item],
    sources: &Sources,
) -> Result<Vec<Items<u32>>, AllocError>
    ensures { IfOk result (λ edges. edges.items ≡ edges_in (number_in sources.now) (plain_items items.now)) }
{
    let mut edges = Vec::new(alloc);
    for item in items {
        edges.push(needs_of(alloc, item, sources)?)?;
    }
    Ok(edges)
}
