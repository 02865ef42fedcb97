ghost use Rattle.std.specs.Prelude.{◌≡◌, ◌^◌, ◌<◌, ◌≤◌, map, None};
ghost use Rattle.std.specs.Option.{option_or};
ghost use Rattle.verilog_mean.specs.Widths.{index_width_of};
ghost use Rattle.verilog_mean.specs.Cycle.{sign_width};
ghost use Rattle.verilog_mean.specs.Declarations.{declaration_of, declared_index_width, width_among};
ghost use Rattle.verilog_rules.specs.Bits.{expr_bits, stmt_bits, item_bits, total};
ghost use Rattle.verilog_rules.specs.Shut.{unequal, too_wide, expr_width, width_refusals, widths_by_driver, widths_by_stmt, widths_by_item};
ghost use Rattle.verilog_rules.specs.Narrow.{IsNarrow};
ghost use Rattle.verilog_rules.specs.First.{first, in_each};

use crate::selects::width_of;
use crate::sizes::bits_of_index;
use crate::table::Table;
use verilog_mean::{Class, MeanRefusal};
use verilog_tree::{BinSign, Driver, Expr, Ident, Item, Stmt};

/// What is found of an expression: its width in bits, and its first refusal.
#[derive(Clone, Copy, Debug)]
pub struct Found {
    pub width: u32,
    pub first: Option<MeanRefusal>,
}

/// The number of bits of an array's index, 0 where the name is no array.
#[tactic(auto, using(crate::proofs::Narrows::index_widths))]
fn index_width(name: &Ident, table: &Table) -> u32
    ensures { result ≡ declared_index_width (declaration_of table.now name.now.text) }
{
    match table.find(&name.text) {
        Some(shape) => match shape.class {
            Class::Array { cells } => bits_of_index(cells.second.value),
            _ => 0,
        },
        None => 0,
    }
}

/// The width of an operator's value, from that of its left operand.
fn width_by(sign: BinSign, width: u32) -> u32
    ensures { result ≡ sign_width sign width }
{
    match sign {
        BinSign::Equal | BinSign::Less => 1,
        _ => width,
    }
}

/// Two widths that are to be equal and differ.
#[tactic(auto, unfolding(crate::specs::Shut::unequal))]
fn differ(at: u32, left: u32, right: u32) -> Option<MeanRefusal>
    ensures { result ≡ first (unequal at left right) }
{
    if left == right {
        None
    } else {
        Some(MeanRefusal::WidthDiffers { at, left, right })
    }
}

/// A join that has more than 64 bits.
#[tactic(auto, unfolding(crate::specs::Shut::too_wide))]
fn wide_join(at: u32, width: u32) -> Option<MeanRefusal>
    ensures { result ≡ first (too_wide at width) }
{
    if width <= 64 {
        None
    } else {
        Some(MeanRefusal::WidthDiffers {
            at,
            left: width,
            right: 64,
        })
    }
}

/// An expression without operators, of some width.
fn leaf(width: u32) -> Found
    ensures width { result.width ≡ width }
    ensures first { result.first ≡ None }
{
    Found { width, first: None }
}

/// A cell of an array, from its index.
fn of_cell(name: &Ident, at: u32, index: Found, table: &Table) -> Found
    requires { IsNarrow table.now }
    ensures width { result.width ≡ width_among table.now name.now.text }
    ensures first { result.first ≡ option_or (first (unequal at index.width (index_width_of table.now name.now))) index.first }
{
    Found {
        width: width_of(name, table),
        first: differ(at, index.width, index_width(name, table)).or(index.first),
    }
}

/// An operator, from its operands.
fn of_binary(sign: BinSign, at: u32, left: Found, right: Found) -> Found
    ensures width { result.width ≡ sign_width sign left.width }
    ensures first { result.first ≡ option_or left.first (option_or (first (unequal at left.width right.width)) right.first) }
{
    let unequal = differ(at, left.width, right.width);
    Found {
        width: width_by(sign, left.width),
        first: left.first.or(unequal.or(right.first)),
    }
}

/// A choice between two values, from its condition and from them.
fn of_choice(question_at: u32, colon_at: u32, test: Found, yes: Found, no: Found) -> Found
    ensures width { result.width ≡ yes.width }
    ensures first { result.first ≡ option_or test.first (option_or (first (unequal question_at test.width 1))
        (option_or yes.first (option_or (first (unequal colon_at yes.width no.width)) no.first))) }
{
    let condition = differ(question_at, test.width, 1);
    let unequal = differ(colon_at, yes.width, no.width);
    Found {
        width: yes.width,
        first: test
            .first
            .or(condition.or(yes.first.or(unequal.or(no.first)))),
    }
}

/// A join, from its parts.
fn of_join(at: u32, parts: Found) -> Found
    ensures width { result.width ≡ parts.width }
    ensures first { result.first ≡ option_or (first (too_wide at parts.width)) parts.first }
{
    Found {
        width: parts.width,
        first: wide_join(at, parts.width).or(parts.first),
    }
}

/// The sum of the widths of some expressions, and their first refusal.
#[cycle(found)]
#[tactic(auto, using(crate::proofs::WidthForms::orders))]
fn in_parts(parts: &[Expr], table: &Table) -> Found
    requires narrow { IsNarrow table.now }
    requires few { total (map (expr_bits table.now) parts.now) < 2 ^ 32 }
    ensures width { result.width ≡ total (map (expr_width table.now) parts.now) }
    ensures few { result.width ≤ total (map (expr_bits table.now) parts.now) }
    ensures first { result.first ≡ first (in_each (width_refusals table.now) parts.now) }
{
    let mut width = 0;
    let mut first = None;
    for part in parts {
        let found = in_expr(part, table);
        width += found.width;
        first = first.or(found.first);
    }
    Found { width, first }
}

/// The width of an expression, and its first refusal.
#[cycle(found)]
#[tactic(auto, using(crate::proofs::WidthForms::orders, crate::proofs::WidthForms::expr_widths, crate::proofs::WidthForms::bits, crate::proofs::WidthForms::widths), unfolding(crate::specs::Bits::expr_bits))]
pub fn in_expr(e: &Expr, table: &Table) -> Found
    requires narrow { IsNarrow table.now }
    requires few { expr_bits table.now e.now < 2 ^ 32 }
    ensures width { result.width ≡ expr_width table.now e.now }
    ensures few { result.width ≤ expr_bits table.now e.now }
    ensures first { result.first ≡ first (width_refusals table.now e.now) }
{
    match e {
        Expr::Literal(literal) => leaf(literal.width),
        Expr::Named(name) => leaf(width_of(name, table)),
        Expr::Select { bits, .. } => leaf((bits.first.value + 1).saturating_sub(bits.second.value)),
        Expr::Cell {
            name,
            bracket_at,
            index,
        } => of_cell(name, *bracket_at, in_expr(index.get(), table), table),
        Expr::Paren { inner, .. } => in_expr(inner.get(), table),
        Expr::Not { inner, .. } => in_expr(inner.get(), table),
        Expr::Join { at, parts } => of_join(*at, in_parts(parts.as_slice(), table)),
        Expr::Binary {
            sign,
            sign_at,
            left,
            right,
        } => {
            let left = in_expr(left.get(), table);
            of_binary(*sign, *sign_at, left, in_expr(right.get(), table))
        }
        Expr::Choice {
            question_at,
            colon_at,
            test,
            yes,
            no,
        } => {
            let test = in_expr(test.get(), table);
            let yes = in_expr(yes.get(), table);
            of_choice(*question_at, *colon_at, test, yes, in_expr(no.get(), table))
        }
    }
}

/// The first refusal of a name of some width and its driver.
#[tactic(auto, using(crate::proofs::WidthForms::orders, crate::proofs::WidthForms::drivers))]
fn in_driver(left: u32, driver: &Driver, table: &Table) -> Option<MeanRefusal>
    requires narrow { IsNarrow table.now }
    requires few { expr_bits table.now driver.now.value < 2 ^ 32 }
    ensures { result ≡ first (widths_by_driver table.now left driver.now) }
{
    let found = in_expr(&driver.value, table);
    differ(driver.sign_at, left, found.width).or(found.first)
}

/// The first refusal of a statement.
#[tactic(auto, using(crate::proofs::WidthForms::orders, crate::proofs::WidthForms::width_items))]
fn in_stmt(stmt: &Stmt, table: &Table) -> Option<MeanRefusal>
    requires narrow { IsNarrow table.now }
    requires few { stmt_bits table.now stmt.now < 2 ^ 32 }
    ensures { result ≡ first (widths_by_stmt table.now stmt.now) }
{
    match stmt {
        Stmt::Next { target, driver } => in_driver(width_of(target, table), driver, table),
        Stmt::Reset {
            first,
            first_sign_at,
            start,
            target,
            driver,
            ..
        } => {
            let start = differ(*first_sign_at, width_of(first, table), start.width);
            start.or(in_driver(width_of(target, table), driver, table))
        }
        Stmt::Write {
            paren_at,
            enable,
            target,
            bracket_at,
            index,
            driver,
            ..
        } => {
            let enable = in_expr(enable, table);
            let index = in_expr(index, table);
            let driver = in_driver(width_of(target, table), driver, table);
            let condition = differ(*paren_at, enable.width, 1);
            let cell = differ(*bracket_at, index.width, index_width(target, table));
            condition.or(enable.first.or(cell.or(index.first.or(driver))))
        }
    }
}

/// The first refusal of an item.
#[tactic(auto, using(crate::proofs::WidthForms::orders, crate::proofs::WidthForms::width_items))]
fn in_item(item: &Item, table: &Table) -> Option<MeanRefusal>
    requires narrow { IsNarrow table.now }
    requires few { item_bits table.now item.now < 2 ^ 32 }
    ensures { result ≡ first (widths_by_item table.now item.now) }
{
    match item {
        Item::Wire { name, driver, .. } => match driver {
            Some(driver) => in_driver(width_of(name, table), driver, table),
            None => None,
        },
        Item::Reg { .. } => None,
        Item::Assign { target, driver, .. } => in_driver(width_of(target, table), driver, table),
        Item::Always { stmt, .. } => in_stmt(stmt, table),
    }
}

/// Sixth rule: the first of two widths that are to be equal and differ.
#[tactic(auto, using(crate::proofs::First::firsts))]
pub fn in_items(items: &[Item], table: &Table) -> Option<MeanRefusal>
    requires narrow { IsNarrow table.now }
    requires few { total (map (item_bits table.now) items.now) < 2 ^ 32 }
    ensures { result ≡ first (in_each (widths_by_item table.now) items.now) }
{
    for item in items {
        if let Some(refusal) = in_item(item, table) {
            return Some(refusal);
        }
    }
    None
}
