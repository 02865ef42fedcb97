ghost use Rattle.std.specs.Prelude.{◌≡◌, ℕ, ◌<◌, IsTrue, length};
ghost use Rattle.hw_expr.specs.Nets.{InScope};
ghost use Rattle.hw_module.specs.Checked.{DriversFit};
ghost use Rattle.hw_module.specs.Scope.{scope_of};
ghost use Rattle.part_bench.specs.Whole.{AreIn, Keeps};

use hw_expr::{Net, lit};
use hw_module::{Module, Owner, PORTS, is_output, port_width};
use hw_pool::Pool;

/// Puts a register, which keeps what it holds, at a forward wire that has no driver.
fn put_register(m: &mut Module, pool: &mut Pool, wire: u32) -> bool
    requires there { wire < length m.old.wires }
    requires drivers { DriversFit m.old pool.old }
    ensures { Keeps m.old pool.old m.new pool.new }
{
    let row = m.wires()[wire as usize];
    if row.driver.is_some() {
        return true;
    }
    if row.level == 0 || m.room() < 3 || pool.spare() == 0 {
        return false;
    }
    let reg = m.reg(Owner::Pipe, row.width, None);
    let net = m.reg_net(pool, reg);
    m.next(pool, reg, net);
    m.drive(pool, wire, net);
    true
}

/// The same at each forward wire.
#[tactic(auto, using(crate::proofs::Steps::behind, crate::proofs::Steps::still))]
pub(crate) fn put_registers(m: &mut Module, pool: &mut Pool) -> bool
    requires drivers { DriversFit m.old pool.old }
    ensures { Keeps m.old pool.old m.new pool.new }
{
    let count = m.wires().len() as u32;
    for wire in 0..count {
        if !put_register(m, pool, wire) {
            return false;
        }
    }
    true
}

/// Puts a register behind a net.
fn watch(m: &mut Module, pool: &Pool, net: Net) -> bool
    requires drivers { DriversFit m.old pool.now }
    requires net { InScope (scope_of m.old) pool.now net }
    ensures { Keeps m.old pool.now m.new pool.now }
{
    if m.room() < 2 || net.width == 0 || net.width > 64 {
        return false;
    }
    let reg = m.reg(Owner::Pipe, net.width, None);
    m.next(pool, reg, net);
    true
}

/// The same behind each of these nets.
#[tactic(auto, using(crate::proofs::Steps::behind, crate::proofs::Steps::still))]
pub(crate) fn watch_all(m: &mut Module, pool: &Pool, nets: &[Net]) -> bool
    requires drivers { DriversFit m.old pool.now }
    requires nets { AreIn m.old pool.now nets.now }
    ensures { Keeps m.old pool.now m.new pool.now }
{
    for k in 0..nets.len() {
        if !watch(m, pool, nets[k]) {
            return false;
        }
    }
    true
}

/// Drives a port with 0, if it is an output that has no driver.
fn close_output(m: &mut Module, pool: &mut Pool, port: u32) -> bool
    requires there { port < 30 }
    requires drivers { DriversFit m.old pool.old }
    ensures { Keeps m.old pool.old m.new pool.new }
{
    if !is_output(port) || m.outs()[port as usize].is_some() {
        return true;
    }
    let width = port_width(port);
    if m.room() == 0 || pool.spare() == 0 || width == 0 || width > 64 {
        return false;
    }
    let zero = lit(pool, width, 0);
    m.output(pool, port, zero);
    true
}

/// The same of each port.
#[tactic(auto, using(crate::proofs::Steps::behind, crate::proofs::Steps::still))]
pub(crate) fn close_outputs(m: &mut Module, pool: &mut Pool) -> bool
    requires drivers { DriversFit m.old pool.old }
    ensures { Keeps m.old pool.old m.new pool.new }
{
    for port in 0..PORTS {
        if !close_output(m, pool, port) {
            return false;
        }
    }
    true
}
