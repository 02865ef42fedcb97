ghost use Rattle.std.specs.Prelude.{◌≡◌, ◌++◌, [], OnOk, codes};
ghost use Rattle.verilog_netlist.specs.Text.{joined, value_pieces};
ghost use Rattle.verilog_netlist.specs.Netlist.Value.{Bits, Cell, Choice, Join};
ghost use Rattle.module_netlist.specs.Lines.{node_value};
ghost use Rattle.module_netlist.specs.Names.{array_name, node_name};

use crate::name::{push_array, push_node, push_reg, push_wire};
use crate::piece::{push_bounds, push_literal, push_text};
use crate::port::push_port;
use hw_module::Module;
use hw_pool::{NodeId, Op};
use std::alloc::AllocError;

/// Appends an operator of this width over the names of its operands.
pub(crate) fn push_value(
    out: &mut Vec<u8>,
    m: &Module,
    width: u32,
    op: Op,
) -> Result<(), AllocError>
    ensures { OnOk result (out.new.items ≡ out.old.items ++ joined (value_pieces (node_value m.now width op) []) []) }
{
    match op {
        Op::Lit(value) => push_literal(out, " ", width, value),
        Op::Input(port) => push_port(out, " ", port),
        Op::Wire(wire) => push_wire(out, " ", m, wire),
        Op::Reg(reg) => push_reg(out, " ", m, reg),
        Op::Not(a) => push_node(out, " ~", a),
        Op::And(a, b) => push_two(out, a, " & ", b),
        Op::Or(a, b) => push_two(out, a, " | ", b),
        Op::Xor(a, b) => push_two(out, a, " ^ ", b),
        Op::Add(a, b) => push_two(out, a, " + ", b),
        Op::Sub(a, b) => push_two(out, a, " - ", b),
        Op::Eq(a, b) => push_two(out, a, " == ", b),
        Op::Ltu(a, b) => push_two(out, a, " < ", b),
        Op::Mux(c, a, b) => push_choice(out, c, a, b),
        Op::Cat(a, b) => push_join(out, a, b),
        Op::Slice(a, high, low) => push_slice(out, a, high, low),
        Op::Read(array, a) => push_read(out, m, array, a),
    }
}

/// Appends an operator between two nodes.
fn push_two(out: &mut Vec<u8>, left: NodeId, sign: &str, right: NodeId) -> Result<(), AllocError>
    ensures { OnOk result (out.new.items ≡ out.old.items ++ (codes " " ++ (node_name left.0 ++ (sign.now ++ node_name right.0)))) }
{
    push_node(out, " ", left)?;
    push_node(out, sign, right)
}

fn push_choice(
    out: &mut Vec<u8>,
    test: NodeId,
    first: NodeId,
    second: NodeId,
) -> Result<(), AllocError>
    ensures { OnOk result (out.new.items ≡ out.old.items ++ joined (value_pieces (Choice (node_name test.0) (node_name first.0) (node_name second.0)) []) []) }
{
    push_node(out, " ", test)?;
    push_node(out, " ? ", first)?;
    push_node(out, " : ", second)
}

fn push_join(out: &mut Vec<u8>, high: NodeId, low: NodeId) -> Result<(), AllocError>
    ensures { OnOk result (out.new.items ≡ out.old.items ++ joined (value_pieces (Join (node_name high.0) (node_name low.0)) []) []) }
{
    push_node(out, " {", high)?;
    push_node(out, ", ", low)?;
    push_text(out, "}")
}

fn push_slice(out: &mut Vec<u8>, node: NodeId, high: u32, low: u32) -> Result<(), AllocError>
    ensures { OnOk result (out.new.items ≡ out.old.items ++ joined (value_pieces (Bits (node_name node.0) high low) []) []) }
{
    push_node(out, " ", node)?;
    push_bounds(out, "[", high, low)
}

fn push_read(out: &mut Vec<u8>, m: &Module, array: u32, address: NodeId) -> Result<(), AllocError>
    ensures { OnOk result (out.new.items ≡ out.old.items ++ joined (value_pieces (Cell (array_name m.now array) (node_name address.0)) []) []) }
{
    push_array(out, " ", m, array)?;
    push_node(out, "[", address)?;
    push_text(out, "]")
}
