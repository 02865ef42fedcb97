ghost use Rattle.std.specs.Prelude.{◌≡◌, codes, []};
ghost use Rattle.core_words.specs.Names.{same_name};
ghost use Rattle.verilog_mean.specs.Declarations.{declaration_of};
ghost use Rattle.verilog_mean.specs.Kinds.{declared_passes, unless};
ghost use Rattle.verilog_rules.specs.Uses.{allows_lem, shape_of, named_use, target_use, may_reset};
ghost use Rattle.verilog_rules.specs.Shut.{kind_refusals, kinds_by_stmt, kinds_by_item};
ghost use Rattle.verilog_rules.specs.First.{first, in_each};

use crate::declare::Shape;
use crate::table::Table;
use verilog_mean::{Class, MeanRefusal};
use verilog_tree::{Expr, Ident, Item, Stmt};

/// What a name is used as.
#[derive(Clone, Copy, Debug, PartialEq, Eq)]
pub enum Use {
    /// A value.
    Read,
    /// Some bits of it are a value.
    Selected,
    /// An array with an index.
    Indexed,
    /// A register that takes a value.
    Stored,
    /// What an assignment is to.
    Assigned,
}

fn allows(of: Use, shape: Shape) -> bool
    ensures { result ≡ allows_lem of shape }
{
    let is_array = matches!(shape.class, Class::Array { .. });
    match of {
        Use::Read => !is_array,
        Use::Selected => !is_array && shape.range.is_some(),
        Use::Indexed => is_array,
        Use::Stored => matches!(shape.class, Class::Register),
        Use::Assigned => match shape.class {
            Class::Output => true,
            Class::Wired { inline } => !inline,
            _ => false,
        },
    }
}

/// Whether a name may be used so; one that is not declared may.
#[tactic(auto, using(crate::proofs::Uses::passes))]
pub fn may_be(of: Use, name: &Ident, table: &Table) -> bool
    ensures { result ≡ declared_passes (λ d. allows_lem of (shape_of d)) (declaration_of table.now name.now.text) }
{
    match table.find(&name.text) {
        Some(shape) => allows(of, shape),
        None => true,
    }
}

#[tactic(auto, using(crate::proofs::Uses::is_same))]
fn is_clock(name: &Ident) -> bool
    ensures { result ≡ same_name name.now.text (codes "clk") }
{
    name.text.is("clk")
}

/// A name in an expression that is of another kind.
fn in_name(of: Use, name: &Ident, table: &Table) -> Option<MeanRefusal>
    ensures { result ≡ first (unless table.now (named_use table.now of name.now) name.now []) }
{
    if !is_clock(name) && may_be(of, name, table) {
        None
    } else {
        Some(MeanRefusal::KindDiffers { at: name.at })
    }
}

/// The first name of an expression that is of another kind.
#[tactic(auto, using(crate::proofs::First::firsts, crate::proofs::KindForms::kinds))]
pub fn in_expr(e: &Expr, table: &Table) -> Option<MeanRefusal>
    ensures { result ≡ first (kind_refusals table.now e.now) }
{
    match e {
        Expr::Literal(_) => None,
        Expr::Named(name) => in_name(Use::Read, name, table),
        Expr::Select { name, .. } => in_name(Use::Selected, name, table),
        Expr::Cell { name, index, .. } => match in_name(Use::Indexed, name, table) {
            Some(refusal) => Some(refusal),
            None => in_expr(index.get(), table),
        },
        Expr::Paren { inner, .. } => in_expr(inner.get(), table),
        Expr::Not { inner, .. } => in_expr(inner.get(), table),
        Expr::Join { parts, .. } => {
            for part in parts.as_slice() {
                if let Some(refusal) = in_expr(part, table) {
                    return Some(refusal);
                }
            }
            None
        }
        Expr::Binary { left, right, .. } => match in_expr(left.get(), table) {
            Some(refusal) => Some(refusal),
            None => in_expr(right.get(), table),
        },
        Expr::Choice { test, yes, no, .. } => match in_expr(test.get(), table) {
            Some(refusal) => Some(refusal),
            None => match in_expr(yes.get(), table) {
                Some(refusal) => Some(refusal),
                None => in_expr(no.get(), table),
            },
        },
    }
}

/// A name that is given a value and is of another kind.
fn in_target(of: Use, name: &Ident, table: &Table) -> Option<MeanRefusal>
    ensures { result ≡ first (unless table.now (target_use table.now of name.now) name.now []) }
{
    if may_be(of, name, table) {
        None
    } else {
        Some(MeanRefusal::KindDiffers { at: name.at })
    }
}

#[tactic(auto, using(crate::proofs::Uses::is_same))]
fn is_same(left: &Ident, right: &Ident) -> bool
    ensures { result ≡ same_name left.now.text right.now.text }
{
    left.text.is(right.text.text().as_str())
}

/// The second name of a reset, which is to be the same register as the first.
#[tactic(auto, unfolding(crate::specs::Uses::may_reset))]
fn in_second(before: &Ident, name: &Ident, table: &Table) -> Option<MeanRefusal>
    ensures { result ≡ first (unless table.now (may_reset table.now before.now name.now) name.now []) }
{
    if may_be(Use::Stored, name, table) && is_same(before, name) {
        None
    } else {
        Some(MeanRefusal::KindDiffers { at: name.at })
    }
}

#[tactic(auto, using(crate::proofs::First::firsts, crate::proofs::KindForms::kind_items))]
fn in_stmt(stmt: &Stmt, table: &Table) -> Option<MeanRefusal>
    ensures { result ≡ first (kinds_by_stmt table.now stmt.now) }
{
    match stmt {
        Stmt::Next { target, driver } => match in_target(Use::Stored, target, table) {
            Some(refusal) => Some(refusal),
            None => in_expr(&driver.value, table),
        },
        Stmt::Reset {
            first,
            target,
            driver,
            ..
        } => match in_target(Use::Stored, first, table) {
            Some(refusal) => Some(refusal),
            None => match in_second(first, target, table) {
                Some(refusal) => Some(refusal),
                None => in_expr(&driver.value, table),
            },
        },
        Stmt::Write {
            enable,
            target,
            index,
            driver,
            ..
        } => match in_expr(enable, table) {
            Some(refusal) => Some(refusal),
            None => match in_target(Use::Indexed, target, table) {
                Some(refusal) => Some(refusal),
                None => match in_expr(index, table) {
                    Some(refusal) => Some(refusal),
                    None => in_expr(&driver.value, table),
                },
            },
        },
    }
}

/// The first name of an item that is of another kind.
#[tactic(auto, using(crate::proofs::First::firsts, crate::proofs::KindForms::kind_items))]
fn in_item(item: &Item, table: &Table) -> Option<MeanRefusal>
    ensures { result ≡ first (kinds_by_item table.now item.now) }
{
    match item {
        Item::Wire { driver, .. } => match driver {
            Some(driver) => in_expr(&driver.value, table),
            None => None,
        },
        Item::Reg { .. } => None,
        Item::Assign { target, driver, .. } => match in_target(Use::Assigned, target, table) {
            Some(refusal) => Some(refusal),
            None => in_expr(&driver.value, table),
        },
        Item::Always { stmt, .. } => in_stmt(stmt, table),
    }
}

/// Fourth rule: the first name of some items that is of another kind.
#[tactic(auto, using(crate::proofs::First::firsts))]
pub fn in_items(items: &[Item], table: &Table) -> Option<MeanRefusal>
    ensures { result ≡ first (in_each (kinds_by_item table.now) items.now) }
{
    for item in items {
        if let Some(refusal) = in_item(item, table) {
            return Some(refusal);
        }
    }
    None
}
