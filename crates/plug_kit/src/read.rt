ghost use Rattle.std.specs.Prelude.{◌≡◌, ℕ, ◌<◌, ◌≤◌, get_or, length};
ghost use Rattle.core_ports.specs.Ports.{width_of};
ghost use Rattle.hw_pool.specs.Meaning.{Env};
ghost use Rattle.hw_gates.specs.Places.{Has, Is, IsIn, Step, value_in};
ghost use Rattle.hw_module.specs.Fits.{IsReadable};
ghost use Rattle.hw_module.specs.Ports.{port_at};
ghost use Rattle.hw_module.specs.Rows.{array_at, reg_at, wire_at};
ghost use Rattle.hw_module.specs.Scope.{scope_of};
ghost use Rattle.plug_build.specs.Fits.{IsInput};

use hw_expr::Net;
use hw_pool::Pool;
use plug_build::Builder;

/// The value of a forward wire; of an input of the entry, a net of the input's width and at most its level.
pub fn wire_net(b: &Builder, pool: &mut Pool, wire: u32) -> Net
    requires spare { 1 ≤ pool.old.spare }
    requires there { wire < length b.now.design.wires }
    ensures value { (env : Env) → value_in env pool.new result ≡ env.wires wire }
    ensures net { Has pool.new result }
    ensures scope { IsIn (scope_of b.now.design) pool.new result }
    ensures width { result.width ≡ (wire_at b.now.design.wires wire).width }
    ensures level { result.level ≡ (wire_at b.now.design.wires wire).level }
    ensures input { (shape : ℕ × ℕ) → IsInput b.now.design b.now.entry wire shape → Is pool.new result shape.0 shape.1 }
    ensures step { Step pool.old pool.new 1 }
{
    b.wire_net(pool, wire)
}

/// The value of a register.
pub fn reg_net(b: &Builder, pool: &mut Pool, reg: u32) -> Net
    requires spare { 1 ≤ pool.old.spare }
    requires there { reg < length b.now.design.regs }
    ensures value { (env : Env) → value_in env pool.new result ≡ env.regs reg }
    ensures net { Has pool.new result }
    ensures scope { IsIn (scope_of b.now.design) pool.new result }
    ensures width { result.width ≡ (reg_at b.now.design.regs reg).width }
    ensures level { result.level ≡ 0 }
    ensures step { Step pool.old pool.new 1 }
{
    b.reg_net(pool, reg)
}

/// The cell of an array that `addr` names.
pub fn cell_net(b: &Builder, pool: &mut Pool, array: u32, addr: Net) -> Net
    requires spare { 1 ≤ pool.old.spare }
    requires there { array < length b.now.design.arrays }
    requires addr { Has pool.old addr }
    requires scope { IsIn (scope_of b.now.design) pool.old addr }
    requires bits { addr.width ≡ (array_at b.now.design.arrays array).bits }
    ensures value { (env : Env) → value_in env pool.new result ≡ get_or (env.cells array) (value_in env pool.old addr) 0 }
    ensures net { Has pool.new result }
    ensures scope { IsIn (scope_of b.now.design) pool.new result }
    ensures width { result.width ≡ (array_at b.now.design.arrays array).width }
    ensures level { result.level ≡ addr.level }
    ensures step { Step pool.old pool.new 1 }
{
    b.read(pool, array, addr)
}

/// The value of an input port other than the clock.
pub fn port_net(b: &Builder, pool: &mut Pool, number: u32) -> Net
    requires spare { 1 ≤ pool.old.spare }
    requires there { IsReadable number }
    ensures value { (env : Env) → value_in env pool.new result ≡ env.inputs number }
    ensures net { Has pool.new result }
    ensures scope { IsIn (scope_of b.now.design) pool.new result }
    ensures width { result.width ≡ width_of (port_at number) }
    ensures level { result.level ≡ 0 }
    ensures step { Step pool.old pool.new 1 }
{
    b.input(pool, number)
}
