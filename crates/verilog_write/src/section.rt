#![tactic(auto, using(crate::proofs::Joins::no_line, crate::proofs::Joins::one_more))]

ghost use Rattle.std.specs.Prelude.{◌≡◌, ◌<◌, ◌++◌, ◌^◌, OnOk, length};
ghost use Rattle.module_netlist.specs.Lines.{array_line, drive_line, next_line, node_line, out_line, reg_line, wire_line, write_line};
ghost use Rattle.verilog_write.specs.Sections.{line_text, section};

use crate::line::{
    push_array_line, push_drive_line, push_next_line, push_node_line, push_out_line, push_reg_line,
    push_wire_line, push_write_line,
};
use hw_module::{Module, PORTS};
use hw_pool::Pool;
use std::alloc::AllocError;

/// Appends the lines that make the forward wires.
pub(crate) fn push_wires(out: &mut Vec<u8>, m: &Module) -> Result<(), AllocError>
    requires { length m.now.wires < 2 ^ 32 }
    ensures { OnOk result (out.new.items ≡ out.old.items ++ section (wire_line m.now) (length m.now.wires)) }
{
    for wire in 0..m.wires().len() {
        push_wire_line(out, m, wire as u32)?;
    }
    Ok(())
}

/// Appends the lines that make the registers.
pub(crate) fn push_regs(out: &mut Vec<u8>, m: &Module) -> Result<(), AllocError>
    requires { length m.now.regs < 2 ^ 32 }
    ensures { OnOk result (out.new.items ≡ out.old.items ++ section (reg_line m.now) (length m.now.regs)) }
{
    for reg in 0..m.regs().len() {
        push_reg_line(out, m, reg as u32)?;
    }
    Ok(())
}

/// Appends the lines that make the arrays.
pub(crate) fn push_arrays(out: &mut Vec<u8>, m: &Module) -> Result<(), AllocError>
    requires { length m.now.arrays < 2 ^ 32 }
    ensures { OnOk result (out.new.items ≡ out.old.items ++ section (array_line m.now) (length m.now.arrays)) }
{
    for array in 0..m.arrays().len() {
        push_array_line(out, m, array as u32)?;
    }
    Ok(())
}

/// Appends the lines of the marked nodes.
pub(crate) fn push_nodes(
    out: &mut Vec<u8>,
    m: &Module,
    pool: &Pool,
    marks: &[bool],
) -> Result<(), AllocError>
    requires { length marks.now ≡ length pool.now.nodes }
    ensures { OnOk result (out.new.items ≡ out.old.items ++ section (node_line m.now pool.now.nodes marks.now) (length pool.now.nodes)) }
{
    for number in 0..pool.live() {
        push_marked(out, m, pool, marks, number)?;
    }
    Ok(())
}

/// Appends the line of a node if it is marked.
#[tactic(auto, unfolding(crate::specs::Sections::line_text))]
fn push_marked(
    out: &mut Vec<u8>,
    m: &Module,
    pool: &Pool,
    marks: &[bool],
    number: u32,
) -> Result<(), AllocError>
    requires many { length marks.now ≡ length pool.now.nodes }
    requires live { number < length pool.now.nodes }
    ensures { OnOk result (out.new.items ≡ out.old.items ++ line_text (node_line m.now pool.now.nodes marks.now number)) }
{
    if marks[number as usize] {
        push_node_line(out, m, pool, number)
    } else {
        Ok(())
    }
}

/// Appends the lines that drive the forward wires.
pub(crate) fn push_drives(out: &mut Vec<u8>, m: &Module) -> Result<(), AllocError>
    requires { length m.now.wires < 2 ^ 32 }
    ensures { OnOk result (out.new.items ≡ out.old.items ++ section (drive_line m.now) (length m.now.wires)) }
{
    for wire in 0..m.wires().len() {
        push_drive_line(out, m, wire as u32)?;
    }
    Ok(())
}

/// Appends the lines that give the registers their next values.
pub(crate) fn push_nexts(out: &mut Vec<u8>, m: &Module) -> Result<(), AllocError>
    requires { length m.now.regs < 2 ^ 32 }
    ensures { OnOk result (out.new.items ≡ out.old.items ++ section (next_line m.now) (length m.now.regs)) }
{
    for reg in 0..m.regs().len() {
        push_next_line(out, m, reg as u32)?;
    }
    Ok(())
}

/// Appends the lines that write the arrays.
pub(crate) fn push_writes(out: &mut Vec<u8>, m: &Module) -> Result<(), AllocError>
    requires { length m.now.arrays < 2 ^ 32 }
    ensures { OnOk result (out.new.items ≡ out.old.items ++ section (write_line m.now) (length m.now.arrays)) }
{
    for array in 0..m.arrays().len() {
        push_write_line(out, m, array as u32)?;
    }
    Ok(())
}

/// Appends the lines that drive the outputs.
pub(crate) fn push_outs(out: &mut Vec<u8>, m: &Module) -> Result<(), AllocError>
    ensures { OnOk result (out.new.items ≡ out.old.items ++ section (out_line m.now) 30) }
{
    for port in 0..PORTS {
        push_out_line(out, m, port)?;
    }
    Ok(())
}
