ghost use Rattle.std.specs.Prelude.{◌≡◌, ◌++◌, OnOk, decimal};
ghost use Rattle.hw_module.specs.Rows.{array_at, reg_at, wire_at};
ghost use Rattle.module_netlist.specs.Names.{array_name, node_name, owner_name, reg_name, wire_name};

use crate::piece::{push_number, push_text};
use hw_module::{Module, Owner};
use hw_pool::NodeId;
use std::alloc::AllocError;

/// Appends a text, and behind it the name of a node.
pub(crate) fn push_node(out: &mut Vec<u8>, before: &str, node: NodeId) -> Result<(), AllocError>
    ensures { OnOk result (out.new.items ≡ out.old.items ++ (before.now ++ node_name node.0)) }
{
    push_text(out, before)?;
    push_text(out, "n")?;
    push_number(out, node.0)
}

/// Appends a text, and behind it the name of a thing of an owner.
fn push_owned(
    out: &mut Vec<u8>,
    before: &str,
    owner: Owner,
    kind: &str,
    number: u32,
) -> Result<(), AllocError>
    ensures { OnOk result (out.new.items ≡ out.old.items ++ (before.now ++ (owner_name owner ++ (kind.now ++ decimal number)))) }
{
    push_text(out, before)?;
    push_owner(out, owner)?;
    push_text(out, kind)?;
    push_number(out, number)
}

fn push_owner(out: &mut Vec<u8>, owner: Owner) -> Result<(), AllocError>
    ensures { OnOk result (out.new.items ≡ out.old.items ++ owner_name owner) }
{
    match owner {
        Owner::Pipe => push_text(out, "s"),
        Owner::Entry(entry) => {
            push_text(out, "p")?;
            push_number(out, entry)
        }
    }
}

/// Appends a text, and behind it the name of a forward wire. One that is not there counts as the pipeline's.
pub(crate) fn push_wire(
    out: &mut Vec<u8>,
    before: &str,
    m: &Module,
    wire: u32,
) -> Result<(), AllocError>
    ensures { OnOk result (out.new.items ≡ out.old.items ++ (before.now ++ wire_name m.now wire)) }
{
    push_owned(out, before, wire_owner(m, wire), "_w", wire)
}

fn wire_owner(m: &Module, wire: u32) -> Owner
    ensures { result ≡ (wire_at m.now.wires wire).owner }
{
    match m.wires().get(wire as usize) {
        Some(row) => row.owner,
        None => Owner::Pipe,
    }
}

/// Appends a text, and behind it the name of a register. One that is not there counts as the pipeline's.
pub(crate) fn push_reg(
    out: &mut Vec<u8>,
    before: &str,
    m: &Module,
    reg: u32,
) -> Result<(), AllocError>
    ensures { OnOk result (out.new.items ≡ out.old.items ++ (before.now ++ reg_name m.now reg)) }
{
    push_owned(out, before, reg_owner(m, reg), "_r", reg)
}

fn reg_owner(m: &Module, reg: u32) -> Owner
    ensures { result ≡ (reg_at m.now.regs reg).owner }
{
    match m.regs().get(reg as usize) {
        Some(row) => row.owner,
        None => Owner::Pipe,
    }
}

/// Appends a text, and behind it the name of an array. One that is not there counts as the pipeline's.
pub(crate) fn push_array(
    out: &mut Vec<u8>,
    before: &str,
    m: &Module,
    array: u32,
) -> Result<(), AllocError>
    ensures { OnOk result (out.new.items ≡ out.old.items ++ (before.now ++ array_name m.now array)) }
{
    push_owned(out, before, array_owner(m, array), "_a", array)
}

fn array_owner(m: &Module, array: u32) -> Owner
    ensures { result ≡ (array_at m.now.arrays array).owner }
{
    match m.arrays().get(array as usize) {
        Some(row) => row.owner,
        None => Owner::Pipe,
    }
}
