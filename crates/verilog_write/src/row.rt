ghost use Rattle.std.specs.Prelude.{◌≡◌, ◌<◌, ◌≤◌, length};
ghost use Rattle.hw_pool.specs.Nodes.{node_at};
ghost use Rattle.hw_module.specs.Rows.{array_at, out_at, reg_at, wire_at};

use hw_expr::Net;
use hw_module::{ArrayRow, Module, RegRow, WireRow};
use hw_pool::{Node, NodeId, Pool};

/// The row of a forward wire.
pub(crate) fn wire_row(m: &Module, wire: u32) -> WireRow
    requires { wire < length m.now.wires }
    ensures row { result ≡ wire_at m.now.wires wire }
    ensures least { 1 ≤ result.width }
{
    m.wires()[wire as usize]
}

/// The row of a register.
pub(crate) fn reg_row(m: &Module, reg: u32) -> RegRow
    requires { reg < length m.now.regs }
    ensures row { result ≡ reg_at m.now.regs reg }
    ensures least { 1 ≤ result.width }
{
    m.regs()[reg as usize]
}

/// The row of an array.
pub(crate) fn array_row(m: &Module, array: u32) -> ArrayRow
    requires { array < length m.now.arrays }
    ensures row { result ≡ array_at m.now.arrays array }
    ensures least { 1 ≤ result.width }
    ensures few { result.bits ≤ 16 }
{
    m.arrays()[array as usize]
}

/// The driver of a port.
pub(crate) fn out_row(m: &Module, port: u32) -> Option<Net>
    requires { port < 30 }
    ensures { result ≡ out_at m.now.outs port }
{
    m.outs()[port as usize]
}

/// The node of a number.
pub(crate) fn node_row(pool: &Pool, id: NodeId) -> Node
    requires { id.0 < length pool.now.nodes }
    ensures node { result ≡ node_at pool.now.nodes id.0 }
    ensures least { 1 ≤ result.width }
{
    // This tells that the pool's widths are in their range.
    let _ = pool.live();
    *pool.get(id)
}
