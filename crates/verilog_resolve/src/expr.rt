ghost use Rattle.std.specs.Prelude.{◌≡◌, ℕ, List, ◌+◌, ◌-◌, ◌^◌, ◌<◌, ◌≤◌, IfOk, false, vec_len};
ghost use Rattle.verilog_mean.specs.Cycle.{eval, width_of};
ghost use Rattle.verilog_mean.specs.Erase.{plain};
ghost use Rattle.verilog_flat.specs.Builds.{IsSameRoom};
ghost use Rattle.verilog_flat.specs.Flat.{IsFit};
ghost use Rattle.verilog_resolve.specs.Names.{IsArray, IsIn, IsNet, base_of, node_of, place_width, places, size_of};
ghost use Rattle.verilog_resolve.specs.View.{view};
ghost use Rattle.verilog_resolve.specs.Flat.{flat, joined, mask_of, merged, push};
ghost use Rattle.verilog_resolve.specs.Means.{Matches, Means};
ghost use Rattle.verilog_resolve.specs.declared.names.Place.{Place};
ghost use Rattle.core_words.specs.Names.{same_name};
ghost use Rattle.verilog_resolve.specs.Fine.{IsBegun, IsFine, IsOperand, begun_width, wide};

use crate::names::{Names, Place};
use std::alloc::AllocError;
use verilog_flat::{Build, Node};
use verilog_tree::{BinSign, Expr, Pair};

/// A node that has a value, and the value's width in bits.
#[derive(Clone, Copy, Drop)]
pub struct Operand {
    pub at: u32,
    pub width: u32,
}

/// A 1 for each bit of a width.
fn mask(width: u32) -> u64
    ensures { result ≡ mask_of width }
{
    if width < 64 {
        (1u64 << width) - 1
    } else {
        0xffff_ffff_ffff_ffff
    }
}

/// Appends the node of an operator.
fn push_binary(
    sign: BinSign,
    left: Operand,
    right: Operand,
    build: &mut Build,
) -> Result<Operand, AllocError>
    requires left { IsOperand (vec_len build.old.nodes) left }
    requires right { IsOperand (vec_len build.old.nodes) right }
    ensures flat { IfOk result (λ d. joined sign left.at right.at left.width build.old.nodes.items ≡ record { nodes = build.new.nodes.items; at = d.at; width = d.width }) }
    ensures within { IfOk result (λ d. IsOperand (vec_len build.new.nodes) d) }
    ensures grows { IfOk result (λ d. vec_len build.new.nodes ≡ vec_len build.old.nodes + 1) }
    ensures longer { vec_len build.old.nodes ≤ vec_len build.new.nodes }
    ensures same { IsSameRoom build.new build.old }
{
    let a = left.at;
    let b = right.at;
    let mask = mask(left.width);
    let node = match sign {
        BinSign::Or => Node::Or { a, b },
        BinSign::Xor => Node::Xor { a, b },
        BinSign::And => Node::And { a, b },
        BinSign::Equal => Node::Equal { a, b },
        BinSign::Less => Node::Less { a, b },
        BinSign::Plus => Node::Plus { a, b, mask },
        BinSign::Minus => Node::Minus { a, b, mask },
    };
    let width = match sign {
        BinSign::Equal | BinSign::Less => 1,
        _ => left.width,
    };
    push_node(node, width, build)
}

/// Joins a part to those before it, which are higher.
fn push_part(all: Option<Operand>, part: Operand, build: &mut Build) -> Result<Operand, AllocError>
    requires all { IsBegun (vec_len build.old.nodes) part.width all }
    requires part { (part.at < vec_len build.old.nodes) × (part.width ≤ 64) }
    ensures flat { IfOk result (λ d. merged all (record { nodes = build.old.nodes.items; at = part.at; width = part.width }) ≡ record { nodes = build.new.nodes.items; at = d.at; width = d.width }) }
    ensures within { IfOk result (λ d. d.at < vec_len build.new.nodes) }
    ensures width { IfOk result (λ d. d.width ≡ begun_width all + part.width) }
    ensures grows { IfOk result (λ d. vec_len build.new.nodes ≤ vec_len build.old.nodes + 1) }
    ensures longer { vec_len build.old.nodes ≤ vec_len build.new.nodes }
    ensures same { IsSameRoom build.new build.old }
{
    match all {
        None => Ok(part),
        Some(high) => {
            let at = build.push(Node::Join {
                high: high.at,
                low: part.at,
                shift: part.width,
            })?;
            Ok(Operand {
                at,
                width: high.width + part.width,
            })
        }
    }
}

/// Appends a node whose value has this width.
fn push_node(node: Node, width: u32, build: &mut Build) -> Result<Operand, AllocError>
    requires fits { IsFit build.old.regs build.old.cells build.old.ins (vec_len build.old.nodes) node }
    requires narrow { width ≤ 64 }
    ensures flat { IfOk result (λ d. push build.old.nodes.items node width ≡ record { nodes = build.new.nodes.items; at = d.at; width = d.width }) }
    ensures within { IfOk result (λ d. IsOperand (vec_len build.new.nodes) d) }
    ensures width { IfOk result (λ d. d.width ≡ width) }
    ensures longer { vec_len build.old.nodes ≤ vec_len build.new.nodes }
    ensures same { IsSameRoom build.new build.old }
{
    let at = build.push(node)?;
    Ok(Operand { at, width })
}

/// Appends the node of some bits of a net.
fn push_slice(place: Place, bits: Pair, build: &mut Build) -> Result<Operand, AllocError>
    requires net { IsNet place }
    requires bits { (bits.second.value ≤ bits.first.value) × (bits.first.value < 64) }
    requires scope { IsIn (vec_len build.old.nodes) build.old.cells place }
    ensures flat { IfOk result (λ d. push build.old.nodes.items
        (Node.Slice (node_of place) bits.second.value (mask_of (bits.first.value + 1 - bits.second.value))) (bits.first.value + 1 - bits.second.value)
        ≡ record { nodes = build.new.nodes.items; at = d.at; width = d.width }) }
    ensures within { IfOk result (λ d. IsOperand (vec_len build.new.nodes) d) }
    ensures width { IfOk result (λ d. d.width ≡ bits.first.value + 1 - bits.second.value) }
    ensures longer { vec_len build.old.nodes ≤ vec_len build.new.nodes }
    ensures same { IsSameRoom build.new build.old }
{
    let Place::Net { node, .. } = place else {
        unreachable!();
    };
    let low = bits.second.value;
    let width = bits.first.value + 1 - low;
    let slice = Node::Slice {
        of: node,
        low,
        mask: mask(width),
    };
    push_node(slice, width, build)
}

/// Appends the node of a cell of an array.
fn push_cell(place: Place, index: Operand, build: &mut Build) -> Result<Operand, AllocError>
    requires array { IsArray place }
    requires index { IsOperand (vec_len build.old.nodes) index }
    requires scope { IsIn (vec_len build.old.nodes) build.old.cells place }
    ensures flat { IfOk result (λ d. push build.old.nodes.items (Node.Cell index.at (base_of place) (size_of place)) (place_width place)
        ≡ record { nodes = build.new.nodes.items; at = d.at; width = d.width }) }
    ensures within { IfOk result (λ d. IsOperand (vec_len build.new.nodes) d) }
    ensures width { IfOk result (λ d. d.width ≡ place_width place) }
    ensures longer { vec_len build.old.nodes ≤ vec_len build.new.nodes }
    ensures same { IsSameRoom build.new build.old }
{
    let Place::Array { base, size, width } = place else {
        unreachable!();
    };
    let index = index.at;
    push_node(Node::Cell { index, base, size }, width, build)
}

/// Appends the nodes of an expression, and answers the one that has its value.
#[tactic(auto, unfolding(crate::specs::View::view))]
fn resolve(e: &Expr, names: &Names, build: &mut Build) -> Result<Operand, AllocError>
    requires fine { IsFine (places names.now) (view e.now) }
    requires scope { (x : List ℕ) → IsIn (vec_len build.old.nodes) build.old.cells (places names.now x) }
    ensures flat { IfOk result (λ d. flat (places names.now) (view e.now) build.old.nodes.items ≡ record { nodes = build.new.nodes.items; at = d.at; width = d.width }) }
    ensures within { IfOk result (λ d. IsOperand (vec_len build.new.nodes) d) }
    ensures width { IfOk result (λ d. d.width ≡ wide (places names.now) (view e.now)) }
    ensures scope { (x : List ℕ) → IsIn (vec_len build.new.nodes) build.new.cells (places names.now x) }
    ensures longer { vec_len build.old.nodes ≤ vec_len build.new.nodes }
    ensures same { IsSameRoom build.new build.old }
{
    match e {
        Expr::Literal(literal) => {
            let node = Node::Literal {
                value: literal.value,
            };
            push_node(node, literal.width, build)
        }
        Expr::Named(name) => match names.place(name.text.text()) {
            Place::Net { node, width } => Ok(Operand { at: node, width }),
            _ => unreachable!(),
        },
        Expr::Select { name, bits } => push_slice(names.place(name.text.text()), *bits, build),
        Expr::Cell { name, index, .. } => {
            let index = resolve(index.get(), names, build)?;
            push_cell(names.place(name.text.text()), index, build)
        }
        Expr::Paren { inner, .. } => resolve(inner.get(), names, build),
        Expr::Not { inner, .. } => {
            let of = resolve(inner.get(), names, build)?;
            let node = Node::Not {
                of: of.at,
                mask: mask(of.width),
            };
            push_node(node, of.width, build)
        }
        Expr::Binary {
            sign,
            left,
            right,
            ..
        } => {
            let a = resolve(left.get(), names, build)?;
            let b = resolve(right.get(), names, build)?;
            push_binary(*sign, a, b, build)
        }
        Expr::Choice { test, yes, no, .. } => {
            let test = resolve(test.get(), names, build)?;
            let first = resolve(yes.get(), names, build)?;
            let other = resolve(no.get(), names, build)?;
            let choice = Node::Choice {
                test: test.at,
                first: first.at,
                other: other.at,
            };
            push_node(choice, first.width, build)
        }
        Expr::Join { parts, .. } => {
            let mut all = None;
            for part in parts.as_slice() {
                let found = resolve(part, names, build)?;
                all = Some(push_part(all, found, build)?);
            }
            match all {
                Some(found) => Ok(found),
                None => unreachable!(),
            }
        }
    }
}

/// Appends the nodes of an expression, and answers the one that has its value.
pub fn flatten(e: &Expr, names: &Names, build: &mut Build) -> Result<Operand, AllocError>
    requires fine { IsFine (places names.now) (plain e.now) }
    requires scope { (x : List ℕ) → IsIn (vec_len build.old.nodes) build.old.cells (places names.now x) }
    ensures means { IfOk result (λ d. (regs cells ins : List ℕ) (w : List ℕ → ℕ) (arrays : List ℕ → List ℕ) (val : List ℕ → ℕ)
        → ((x : List ℕ) → Matches regs cells ins w arrays val build.old.nodes.items x (places names.now x))
        → Means regs cells ins w arrays val build.old.nodes.items (plain e.now) (record { nodes = build.new.nodes.items; at = d.at; width = d.width })) }
    ensures within { IfOk result (λ d. IsOperand (vec_len build.new.nodes) d) }
    ensures width { IfOk result (λ d. d.width ≡ wide (places names.now) (plain e.now)) }
    ensures scope { (x : List ℕ) → IsIn (vec_len build.new.nodes) build.new.cells (places names.now x) }
    ensures longer { vec_len build.old.nodes ≤ vec_len build.new.nodes }
    ensures same { IsSameRoom build.new build.old }
{
    resolve(e, names, build)
}

/// Gives a wire's name the node that has its driver's value.
pub fn bind_wire<'a>(
    name: &'a str,
    driver: &Expr,
    names: &mut Names<'a>,
    build: &mut Build,
) -> Result<Operand, AllocError>
    requires fine { IsFine (places names.old) (plain driver.now) }
    requires scope { (x : List ℕ) → IsIn (vec_len build.old.nodes) build.old.cells (places names.old x) }
    ensures means { IfOk result (λ d. (regs cells ins : List ℕ) (w : List ℕ → ℕ) (arrays : List ℕ → List ℕ) (val : List ℕ → ℕ)
        → w name.now ≡ width_of w (plain driver.now) → val name.now ≡ eval w arrays val (plain driver.now)
        → ((x : List ℕ) → Matches regs cells ins w arrays val build.old.nodes.items x (places names.old x))
        → (x : List ℕ) → Matches regs cells ins w arrays val build.new.nodes.items x (places names.new x)) }
    ensures bound { IfOk result (λ d. places names.new name.now ≡ Place.Net d.at d.width) }
    ensures others { IfOk result (λ d. (x : List ℕ) → same_name name.now x ≡ false → places names.new x ≡ places names.old x) }
    ensures scope { IfOk result (λ d. (x : List ℕ) → IsIn (vec_len build.new.nodes) build.new.cells (places names.new x)) }
    ensures width { IfOk result (λ d. d.width ≡ wide (places names.old) (plain driver.now)) }
    ensures same { IsSameRoom build.new build.old }
{
    let found = flatten(driver, names, build)?;
    names.bind(
        name,
        Place::Net {
            node: found.at,
            width: found.width,
        },
    )?;
    Ok(found)
}
