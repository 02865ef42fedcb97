ghost use Rattle.std.specs.Prelude.{◌≡◌, ◌<◌, ◌++◌, OnOk, Some, length};
ghost use Rattle.verilog_netlist.specs.Netlist.Line.{Next, Reset};
ghost use Rattle.module_netlist.specs.Names.{array_name, node_name, reg_name};
ghost use Rattle.module_netlist.specs.Lines.{array_line, drive_line, next_line, out_line, reg_line, wire_line, write_line, written};
ghost use Rattle.verilog_write.specs.Sections.{line_text, net_line};

use crate::name::{push_array, push_node, push_reg, push_wire};
use crate::piece::{push_cells, push_literal, push_range, push_text};
use crate::port::push_port;
use crate::row::{array_row, node_row, out_row, reg_row, wire_row};
use crate::value::push_value;
use hw_module::{ArrayWrite, Module};
use hw_pool::{NodeId, Pool};
use std::alloc::AllocError;

/// Appends the line that makes a forward wire.
#[tactic(auto, unfolding(crate::specs::Sections::line_text))]
pub(crate) fn push_wire_line(out: &mut Vec<u8>, m: &Module, wire: u32) -> Result<(), AllocError>
    requires { wire < length m.now.wires }
    ensures { OnOk result (out.new.items ≡ out.old.items ++ line_text (wire_line m.now wire)) }
{
    push_range(out, "\n  wire", wire_row(m, wire).width)?;
    push_wire(out, " ", m, wire)?;
    push_text(out, ";")
}

/// Appends the line that makes a register.
#[tactic(auto, unfolding(crate::specs::Sections::line_text))]
pub(crate) fn push_reg_line(out: &mut Vec<u8>, m: &Module, reg: u32) -> Result<(), AllocError>
    requires { reg < length m.now.regs }
    ensures { OnOk result (out.new.items ≡ out.old.items ++ line_text (reg_line m.now reg)) }
{
    push_range(out, "\n  reg", reg_row(m, reg).width)?;
    push_reg(out, " ", m, reg)?;
    push_text(out, ";")
}

/// Appends the line that makes an array.
#[tactic(auto, unfolding(crate::specs::Sections::line_text))]
pub(crate) fn push_array_line(out: &mut Vec<u8>, m: &Module, array: u32) -> Result<(), AllocError>
    requires { array < length m.now.arrays }
    ensures { OnOk result (out.new.items ≡ out.old.items ++ line_text (array_line m.now array)) }
{
    let row = array_row(m, array);
    push_range(out, "\n  reg", row.width)?;
    push_array(out, " ", m, array)?;
    push_cells(out, row.bits)?;
    push_text(out, ";")
}

/// Appends the line of a node: a wire and its operator.
pub(crate) fn push_node_line(
    out: &mut Vec<u8>,
    m: &Module,
    pool: &Pool,
    number: u32,
) -> Result<(), AllocError>
    requires { number < length pool.now.nodes }
    ensures { OnOk result (out.new.items ≡ out.old.items ++ line_text (Some (net_line m.now pool.now.nodes number))) }
{
    let id = NodeId(number);
    let node = node_row(pool, id);
    push_range(out, "\n  wire", node.width)?;
    push_node(out, " ", id)?;
    push_text(out, " =")?;
    push_value(out, m, node.width, node.op)?;
    push_text(out, ";")
}

/// Appends the line that drives a forward wire, if it has a driver.
#[tactic(auto, unfolding(crate::specs::Sections::line_text))]
pub(crate) fn push_drive_line(out: &mut Vec<u8>, m: &Module, wire: u32) -> Result<(), AllocError>
    requires { wire < length m.now.wires }
    ensures { OnOk result (out.new.items ≡ out.old.items ++ line_text (drive_line m.now wire)) }
{
    match wire_row(m, wire).driver {
        None => Ok(()),
        Some(net) => {
            push_wire(out, "\n  assign ", m, wire)?;
            push_node(out, " = ", net.id)?;
            push_text(out, ";")
        }
    }
}

/// Appends the line that drives an output, if it has a driver.
#[tactic(auto, unfolding(crate::specs::Sections::line_text))]
pub(crate) fn push_out_line(out: &mut Vec<u8>, m: &Module, port: u32) -> Result<(), AllocError>
    requires { port < 30 }
    ensures { OnOk result (out.new.items ≡ out.old.items ++ line_text (out_line m.now port)) }
{
    match out_row(m, port) {
        None => Ok(()),
        Some(net) => {
            push_port(out, "\n  assign ", port)?;
            push_node(out, " = ", net.id)?;
            push_text(out, ";")
        }
    }
}

/// Appends the line that gives a register its next value, if it has one.
#[tactic(auto, unfolding(crate::specs::Sections::line_text))]
pub(crate) fn push_next_line(out: &mut Vec<u8>, m: &Module, reg: u32) -> Result<(), AllocError>
    requires { reg < length m.now.regs }
    ensures { OnOk result (out.new.items ≡ out.old.items ++ line_text (next_line m.now reg)) }
{
    let row = reg_row(m, reg);
    match row.next {
        None => Ok(()),
        Some(net) => match row.reset {
            None => push_next(out, m, reg, net.id),
            Some(start) => push_reset(out, m, reg, row.width, start, net.id),
        },
    }
}

/// Appends the line by which a register takes a value in each cycle.
fn push_next(out: &mut Vec<u8>, m: &Module, reg: u32, node: NodeId) -> Result<(), AllocError>
    ensures { OnOk result (out.new.items ≡ out.old.items ++ line_text (Some (Next (reg_name m.now reg) (node_name node.0)))) }
{
    push_reg(out, "\n  always @(posedge clk) ", m, reg)?;
    push_node(out, " <= ", node)?;
    push_text(out, ";")
}

/// Appends the line by which a register takes its start value in a reset, and another value in each other cycle.
fn push_reset(
    out: &mut Vec<u8>,
    m: &Module,
    reg: u32,
    width: u32,
    start: u64,
    node: NodeId,
) -> Result<(), AllocError>
    ensures { OnOk result (out.new.items ≡ out.old.items ++ line_text (Some (Reset (reg_name m.now reg) width start (node_name node.0)))) }
{
    push_reg(out, "\n  always @(posedge clk) if (reset) ", m, reg)?;
    push_literal(out, " <= ", width, start)?;
    push_reg(out, "; else ", m, reg)?;
    push_node(out, " <= ", node)?;
    push_text(out, ";")
}

/// Appends the line that writes an array, if it has a write.
#[tactic(auto, unfolding(crate::specs::Sections::line_text))]
pub(crate) fn push_write_line(out: &mut Vec<u8>, m: &Module, array: u32) -> Result<(), AllocError>
    requires { array < length m.now.arrays }
    ensures { OnOk result (out.new.items ≡ out.old.items ++ line_text (write_line m.now array)) }
{
    match array_row(m, array).write {
        None => Ok(()),
        Some(write) => push_write(out, m, array, write),
    }
}

/// Appends the line by which an array takes a value in a cell where a node is 1.
fn push_write(
    out: &mut Vec<u8>,
    m: &Module,
    array: u32,
    write: ArrayWrite,
) -> Result<(), AllocError>
    ensures { OnOk result (out.new.items ≡ out.old.items ++ line_text (written (array_name m.now array) (Some write))) }
{
    push_node(out, "\n  always @(posedge clk) if (", write.enable.id)?;
    push_array(out, ") ", m, array)?;
    push_node(out, "[", write.addr.id)?;
    push_node(out, "] <= ", write.value.id)?;
    push_text(out, ";")
}
