ghost use Rattle.std.specs.Prelude.{◌≡◌, [], IfOk, IfErr, OnOk};
ghost use Rattle.verilog_mean.specs.Names.{unknown_name, unknown_in_items, known_after};
ghost use Rattle.verilog_mean.specs.Declarations.{item_declaration};
ghost use Rattle.verilog_rules.specs.SameNames.{SameNames};
ghost use Rattle.verilog_rules.specs.Shut.{unknown_names, unknown_by_stmt, unknown_by_item};
ghost use Rattle.verilog_rules.specs.First.{first, Refuses};

use crate::names::Names;
use std::alloc::AllocError;
use verilog_mean::MeanRefusal;
use verilog_tree::{Expr, Ident, Item, Stmt};

/// A name that is not known.
fn in_name(name: &Ident, known: &Names) -> Option<MeanRefusal>
    ensures { result ≡ first (unknown_name known.now name.now []) }
{
    if known.knows(&name.text) {
        None
    } else {
        Some(MeanRefusal::NameUnknown { at: name.at })
    }
}

/// The first name of an expression that is not known.
#[tactic(auto, using(crate::proofs::First::firsts, crate::proofs::Unknowns::unknowns))]
pub fn in_expr(e: &Expr, known: &Names) -> Option<MeanRefusal>
    ensures { result ≡ first (unknown_names known.now e.now) }
{
    match e {
        Expr::Literal(_) => None,
        Expr::Named(name) => in_name(name, known),
        Expr::Select { name, .. } => in_name(name, known),
        Expr::Cell { name, index, .. } => match in_name(name, known) {
            Some(refusal) => Some(refusal),
            None => in_expr(index.get(), known),
        },
        Expr::Paren { inner, .. } => in_expr(inner.get(), known),
        Expr::Not { inner, .. } => in_expr(inner.get(), known),
        Expr::Join { parts, .. } => {
            for part in parts.as_slice() {
                if let Some(refusal) = in_expr(part, known) {
                    return Some(refusal);
                }
            }
            None
        }
        Expr::Binary { left, right, .. } => match in_expr(left.get(), known) {
            Some(refusal) => Some(refusal),
            None => in_expr(right.get(), known),
        },
        Expr::Choice { test, yes, no, .. } => match in_expr(test.get(), known) {
            Some(refusal) => Some(refusal),
            None => match in_expr(yes.get(), known) {
                Some(refusal) => Some(refusal),
                None => in_expr(no.get(), known),
            },
        },
    }
}

#[tactic(auto, using(crate::proofs::First::firsts, crate::proofs::Unknowns::unknown_items))]
fn in_stmt(stmt: &Stmt, known: &Names) -> Option<MeanRefusal>
    ensures { result ≡ first (unknown_by_stmt known.now stmt.now) }
{
    match stmt {
        Stmt::Next { target, driver } => match in_name(target, known) {
            Some(refusal) => Some(refusal),
            None => in_expr(&driver.value, known),
        },
        Stmt::Reset {
            first,
            target,
            driver,
            ..
        } => match in_name(first, known) {
            Some(refusal) => Some(refusal),
            None => match in_name(target, known) {
                Some(refusal) => Some(refusal),
                None => in_expr(&driver.value, known),
            },
        },
        Stmt::Write {
            enable,
            target,
            index,
            driver,
            ..
        } => match in_expr(enable, known) {
            Some(refusal) => Some(refusal),
            None => match in_name(target, known) {
                Some(refusal) => Some(refusal),
                None => match in_expr(index, known) {
                    Some(refusal) => Some(refusal),
                    None => in_expr(&driver.value, known),
                },
            },
        },
    }
}

/// The first name of an item that is not known.
#[tactic(auto, using(crate::proofs::First::firsts, crate::proofs::Unknowns::unknown_items))]
fn in_item(item: &Item, known: &Names) -> Option<MeanRefusal>
    ensures { result ≡ first (unknown_by_item known.now item.now) }
{
    match item {
        Item::Wire { driver, .. } => match driver {
            Some(driver) => in_expr(&driver.value, known),
            None => None,
        },
        Item::Reg { .. } => None,
        Item::Assign { target, driver, .. } => match in_name(target, known) {
            Some(refusal) => Some(refusal),
            None => in_expr(&driver.value, known),
        },
        Item::Always { stmt, .. } => in_stmt(stmt, known),
    }
}

/// Makes the name that an item declares known.
fn learn<'a>(item: &'a Item, known: &mut Names<'a>) -> Result<(), AllocError>
    ensures { OnOk result (SameNames known.new (known_after known.old (item_declaration item.now))) }
{
    match item {
        Item::Wire { name, .. } => known.add(&name.text),
        Item::Reg { name, .. } => known.add(&name.text),
        _ => Ok(()),
    }
}

/// Third rule: each item uses names that are declared before it, or that it declares itself.
pub fn in_items<'a>(items: &'a [Item], known: &mut Names<'a>) -> Result<(), MeanRefusal>
    ensures sound { IfOk result (λ _. unknown_in_items known.old items.now ≡ []) }
    ensures refused { IfErr result (λ r. Refuses r (unknown_in_items known.old items.now)) }
{
    for item in items {
        match learn(item, known) {
            Ok(()) => {}
            Err(_) => return Err(MeanRefusal::NoMemory),
        }
        match in_item(item, known) {
            Some(refusal) => return Err(refusal),
            None => {}
        }
    }
    Ok(())
}
