ghost use Rattle.std.specs.Prelude.{◌≡◌, ◌≤◌, List};
ghost use Rattle.hw_expr.specs.Nets.{InScope};
ghost use Rattle.hw_module.specs.Checked.{DriversFit};
ghost use Rattle.hw_module.specs.Scope.{scope_of};
ghost use Rattle.sample_text.specs.Draft.{AreIn};

use hw_expr::Net;
use hw_module::{Module, PORTS, is_output, port_width};
use hw_pool::Pool;

/// Drives a forward wire, if it has no driver and the net's width and level are right.
pub(crate) fn drive(m: &mut Module, pool: &Pool, wire: u32, net: Net) -> bool
    requires { InScope (scope_of m.old) pool.now net }
    ensures nets { (nets : List Net) → AreIn m.old pool.now nets → AreIn m.new pool.now nets }
    ensures drivers { DriversFit m.old pool.now → DriversFit m.new pool.now }
{
    if m.room() == 0 || wire as usize >= m.wires().len() {
        return false;
    }
    let row = m.wires()[wire as usize];
    if row.driver.is_some() || row.width != net.width || net.level >= row.level {
        return false;
    }
    m.drive(pool, wire, net);
    true
}

/// Gives a register its next value, if it has none and the net's width is right.
pub(crate) fn next(m: &mut Module, pool: &Pool, reg: u32, net: Net) -> bool
    requires { InScope (scope_of m.old) pool.now net }
    ensures nets { (nets : List Net) → AreIn m.old pool.now nets → AreIn m.new pool.now nets }
    ensures drivers { DriversFit m.old pool.now → DriversFit m.new pool.now }
{
    if m.room() == 0 || reg as usize >= m.regs().len() {
        return false;
    }
    let row = m.regs()[reg as usize];
    if row.next.is_some() || row.width != net.width {
        return false;
    }
    m.next(pool, reg, net);
    true
}

/// Gives an array its write, if it has none and the nets' widths are right.
pub(crate) fn write(
    m: &mut Module,
    pool: &Pool,
    array: u32,
    enable: Net,
    addr: Net,
    value: Net,
) -> bool
    requires enable { InScope (scope_of m.old) pool.now enable }
    requires addr { InScope (scope_of m.old) pool.now addr }
    requires value { InScope (scope_of m.old) pool.now value }
    ensures nets { (nets : List Net) → AreIn m.old pool.now nets → AreIn m.new pool.now nets }
    ensures drivers { DriversFit m.old pool.now → DriversFit m.new pool.now }
{
    if m.room() == 0 || array as usize >= m.arrays().len() {
        return false;
    }
    let row = m.arrays()[array as usize];
    if row.write.is_some() || enable.width != 1 {
        return false;
    }
    if addr.width != row.bits || value.width != row.width {
        return false;
    }
    m.write(pool, array, enable, addr, value);
    true
}

/// Drives an output, if it has no driver and the net's width is right.
pub(crate) fn output(m: &mut Module, pool: &Pool, port: u32, net: Net) -> bool
    requires { InScope (scope_of m.old) pool.now net }
    ensures nets { (nets : List Net) → AreIn m.old pool.now nets → AreIn m.new pool.now nets }
    ensures drivers { DriversFit m.old pool.now → DriversFit m.new pool.now }
{
    if m.room() == 0 || port >= PORTS || !is_output(port) {
        return false;
    }
    if m.outs()[port as usize].is_some() || net.width != port_width(port) {
        return false;
    }
    m.output(pool, port, net);
    true
}
