ghost use Rattle.std.specs.Prelude.{◌≡◌, [], ◌∷◌, IfOk, IfErr, map, Option, Some, None};
ghost use Rattle.verilog_rules.specs.Collected.{declaration, maybe_ident};
ghost use Rattle.verilog_mean.specs.Drivers.{stmt_target, item_target, targets, texts_of, driven_again, undriven, wants_driver};
ghost use Rattle.verilog_rules.specs.SameNames.{SameNames};
ghost use Rattle.verilog_rules.specs.First.{Refuses, first};

use crate::declare::Declared;
use crate::names::Names;
use std::alloc::Global;
use verilog_mean::{Class, MeanRefusal};
use verilog_tree::{Ident, Item, Stmt};

fn of_stmt(stmt: &Stmt) -> &Ident
    ensures { result.now ≡ stmt_target stmt.now }
{
    match stmt {
        Stmt::Next { target, .. } => target,
        Stmt::Reset { target, .. } => target,
        Stmt::Write { target, .. } => target,
    }
}

fn target(item: &Item) -> Option<&Ident>
    ensures { maybe_ident result ≡ item_target item.now }
{
    match item {
        Item::Wire { name, driver, .. } => match driver {
            Some(_) => Some(name),
            None => None,
        },
        Item::Reg { .. } => None,
        Item::Assign { target, .. } => Some(target),
        Item::Always { stmt, .. } => Some(of_stmt(stmt)),
    }
}

/// Seventh rule: the names that are driven, where none is driven again.

pub fn driven_of<'a>(alloc: Global, items: &'a [Item]) -> Result<Names<'a>, MeanRefusal>
    ensures names { IfOk result (λ names. SameNames names (texts_of (targets items.now))) }
    ensures sound { IfOk result (λ _. driven_again [] (targets items.now) ≡ []) }
    ensures refused { IfErr result (λ r. Refuses r (driven_again [] (targets items.now))) }
{
    let mut names = Names::new(alloc);
    for item in items {
        let Some(name) = target(item) else {
            continue;
        };
        if names.knows(&name.text) {
            return Err(MeanRefusal::DriverTwice { at: name.at });
        }
        match names.add(&name.text) {
            Ok(()) => {}
            Err(_) => return Err(MeanRefusal::NoMemory),
        }
    }
    Ok(names)
}

fn needs_driver(class: Class) -> bool
    ensures { result ≡ wants_driver class }
{
    match class {
        Class::Input => false,
        _ => true,
    }
}

/// Eighth rule: the first declaration whose name is not driven.
pub fn undriven(all: &[Declared], driven: &Names) -> Option<MeanRefusal>
    ensures { result ≡ first (undriven driven.now (map declaration all.now)) }
{
    for d in all {
        if needs_driver(d.shape.class) && !driven.knows(&d.name.text) {
            return Some(MeanRefusal::DriverMissing { at: d.name.at });
        }
    }
    None
}
