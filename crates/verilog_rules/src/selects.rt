ghost use Rattle.std.specs.Prelude.{◌≡◌};
ghost use Rattle.verilog_mean.specs.Declarations.{width_among};
ghost use Rattle.verilog_mean.specs.Widths.{select_outside};
ghost use Rattle.verilog_rules.specs.Shut.{select_refusals, selects_by_stmt, selects_by_item};
ghost use Rattle.verilog_rules.specs.Narrow.{IsNarrow};
ghost use Rattle.verilog_rules.specs.First.{first, in_each};

use crate::table::Table;
use verilog_mean::MeanRefusal;
use verilog_tree::{Expr, Ident, Item, Pair, Stmt};

/// The declared width of a name, 0 where there is none.
pub fn width_of(name: &Ident, table: &Table) -> u32
    requires { IsNarrow table.now }
    ensures { result ≡ width_among table.now name.now.text }
{
    match table.find(&name.text) {
        Some(shape) => match shape.range {
            Some(range) => range.first.value + 1,
            None => 1,
        },
        None => 0,
    }
}

/// A selection of bits that the name has not.
fn in_select(name: &Ident, bits: &Pair, table: &Table) -> Option<MeanRefusal>
    requires { IsNarrow table.now }
    ensures { result ≡ first (select_outside table.now name.now bits.now) }
{
    let high = bits.first.value;
    let low = bits.second.value;
    let width = width_of(name, table);
    if low <= high && high < width {
        None
    } else {
        Some(MeanRefusal::SelectOutside {
            at: name.at,
            high,
            low,
            width,
        })
    }
}

/// The first selection of an expression that is outside its name's width.
#[tactic(auto, using(crate::proofs::First::firsts, crate::proofs::SelectForms::selects))]
pub fn in_expr(e: &Expr, table: &Table) -> Option<MeanRefusal>
    requires { IsNarrow table.now }
    ensures { result ≡ first (select_refusals table.now e.now) }
{
    match e {
        Expr::Literal(_) => None,
        Expr::Named(_) => None,
        Expr::Select { name, bits } => in_select(name, bits, table),
        Expr::Cell { index, .. } => in_expr(index.get(), table),
        Expr::Paren { inner, .. } => in_expr(inner.get(), table),
        Expr::Not { inner, .. } => in_expr(inner.get(), table),
        Expr::Join { parts, .. } => {
            for part in parts.as_slice() {
                if let Some(refusal) = in_expr(part, table) {
                    return Some(refusal);
                }
            }
            None
        }
        Expr::Binary { left, right, .. } => match in_expr(left.get(), table) {
            Some(refusal) => Some(refusal),
            None => in_expr(right.get(), table),
        },
        Expr::Choice { test, yes, no, .. } => match in_expr(test.get(), table) {
            Some(refusal) => Some(refusal),
            None => match in_expr(yes.get(), table) {
                Some(refusal) => Some(refusal),
                None => in_expr(no.get(), table),
            },
        },
    }
}

#[tactic(auto, using(crate::proofs::First::firsts, crate::proofs::SelectForms::select_items))]
fn in_stmt(stmt: &Stmt, table: &Table) -> Option<MeanRefusal>
    requires { IsNarrow table.now }
    ensures { result ≡ first (selects_by_stmt table.now stmt.now) }
{
    match stmt {
        Stmt::Next { driver, .. } => in_expr(&driver.value, table),
        Stmt::Reset { driver, .. } => in_expr(&driver.value, table),
        Stmt::Write {
            enable,
            index,
            driver,
            ..
        } => match in_expr(enable, table) {
            Some(refusal) => Some(refusal),
            None => match in_expr(index, table) {
                Some(refusal) => Some(refusal),
                None => in_expr(&driver.value, table),
            },
        },
    }
}

/// The first selection of an item that is outside its name's width.
#[tactic(auto, using(crate::proofs::First::firsts, crate::proofs::SelectForms::select_items))]
fn in_item(item: &Item, table: &Table) -> Option<MeanRefusal>
    requires { IsNarrow table.now }
    ensures { result ≡ first (selects_by_item table.now item.now) }
{
    match item {
        Item::Wire { driver, .. } => match driver {
            Some(driver) => in_expr(&driver.value, table),
            None => None,
        },
        Item::Reg { .. } => None,
        Item::Assign { driver, .. } => in_expr(&driver.value, table),
        Item::Always { stmt, .. } => in_stmt(stmt, table),
    }
}

/// Fifth rule: the first selection of bits that the name has not.
#[tactic(auto, using(crate::proofs::First::firsts))]
pub fn in_items(items: &[Item], table: &Table) -> Option<MeanRefusal>
    requires { IsNarrow table.now }
    ensures { result ≡ first (in_each (selects_by_item table.now) items.now) }
{
    for item in items {
        if let Some(refusal) = in_item(item, table) {
            return Some(refusal);
        }
    }
    None
}
