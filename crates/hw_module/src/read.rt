ghost use Rattle.std.specs.Prelude.{◌≡◌, ◌+◌, ◌<◌, ◌≤◌, get_or, length};
ghost use Rattle.core_ports.specs.Ports.{width_of};
ghost use Rattle.hw_pool.specs.Frame.{Adds};
ghost use Rattle.hw_pool.specs.Meaning.{Env};
ghost use Rattle.hw_pool.specs.Scope.{Scope};
ghost use Rattle.hw_expr.specs.Nets.{InScope, IsNet, net_value};
ghost use Rattle.hw_module.specs.Ports.{port_at};
ghost use Rattle.hw_module.specs.Rows.{array_at, reg_at, wire_at};
ghost use Rattle.hw_module.specs.Fits.{FitsIn, IsReadable};
ghost use Rattle.hw_module.specs.Scope.{scope_of};

use crate::{Module, port_width};
use hw_expr::{Net, put};
use hw_pool::{Op, Pool};

impl Module {
    /// The value of an input port other than the clock.
    #[tactic(auto, using(crate::proofs::Fits::leaf_fits, crate::proofs::Tables::width_wide))]
    pub fn input(&self, pool: &mut Pool, number: u32) -> Net
        requires spare { 1 ≤ pool.old.spare }
        requires there { IsReadable number }
        ensures value { (env : Env) → net_value env pool.new result ≡ env.inputs number }
        ensures width { result.width ≡ width_of (port_at number) }
        ensures level { result.level ≡ 0 }
        ensures fits { FitsIn self.now pool.new result }
        ensures scope { InScope (scope_of self.now) pool.new result }
        ensures net { IsNet pool.new result }
        ensures adds { Adds pool.old pool.new 1 }
        ensures kept { (s : Scope) (n : Net) → InScope s pool.old n → InScope s pool.new n }
        ensures nets { (n : Net) → IsNet pool.old n → IsNet pool.new n }
        ensures values { (env : Env) (n : Net) → IsNet pool.old n → net_value env pool.new n ≡ net_value env pool.old n }
    {
        put(pool, Op::Input(number), port_width(number), 0)
    }

    /// The value of a forward wire.
    #[tactic(auto, using(crate::proofs::Fits::leaf_fits))]
    pub fn wire_net(&self, pool: &mut Pool, wire: u32) -> Net
        requires spare { 1 ≤ pool.old.spare }
        requires there { wire < length self.now.wires }
        ensures value { (env : Env) → net_value env pool.new result ≡ env.wires wire }
        ensures width { result.width ≡ (wire_at self.now.wires wire).width }
        ensures level { result.level ≡ (wire_at self.now.wires wire).level }
        ensures fits { FitsIn self.now pool.new result }
        ensures scope { InScope (scope_of self.now) pool.new result }
        ensures net { IsNet pool.new result }
        ensures adds { Adds pool.old pool.new 1 }
        ensures kept { (s : Scope) (n : Net) → InScope s pool.old n → InScope s pool.new n }
        ensures nets { (n : Net) → IsNet pool.old n → IsNet pool.new n }
        ensures values { (env : Env) (n : Net) → IsNet pool.old n → net_value env pool.new n ≡ net_value env pool.old n }
    {
        let row = self.wires()[wire as usize];
        put(pool, Op::Wire(wire), row.width, row.level)
    }

    /// The value of a register.
    #[tactic(auto, using(crate::proofs::Fits::leaf_fits))]
    pub fn reg_net(&self, pool: &mut Pool, reg: u32) -> Net
        requires spare { 1 ≤ pool.old.spare }
        requires there { reg < length self.now.regs }
        ensures value { (env : Env) → net_value env pool.new result ≡ env.regs reg }
        ensures width { result.width ≡ (reg_at self.now.regs reg).width }
        ensures level { result.level ≡ 0 }
        ensures fits { FitsIn self.now pool.new result }
        ensures scope { InScope (scope_of self.now) pool.new result }
        ensures net { IsNet pool.new result }
        ensures adds { Adds pool.old pool.new 1 }
        ensures kept { (s : Scope) (n : Net) → InScope s pool.old n → InScope s pool.new n }
        ensures nets { (n : Net) → IsNet pool.old n → IsNet pool.new n }
        ensures values { (env : Env) (n : Net) → IsNet pool.old n → net_value env pool.new n ≡ net_value env pool.old n }
    {
        let row = self.regs()[reg as usize];
        put(pool, Op::Reg(reg), row.width, 0)
    }

    /// The cell of an array that `addr` names, which is as wide as the array's number of bits.
    #[tactic(auto, using(crate::proofs::Fits::leaf_fits), unfolding(hw_expr::specs::Nets::net_value))]
    pub fn read(&self, pool: &mut Pool, array: u32, addr: Net) -> Net
        requires spare { 1 ≤ pool.old.spare }
        requires there { array < length self.now.arrays }
        requires addr { FitsIn self.now pool.old addr }
        requires bits { addr.width ≡ (array_at self.now.arrays array).bits }
        ensures value { (env : Env) → net_value env pool.new result ≡ get_or (env.cells array) (net_value env pool.old addr) 0 }
        ensures width { result.width ≡ (array_at self.now.arrays array).width }
        ensures level { result.level ≡ addr.level }
        ensures fits { FitsIn self.now pool.new result }
        ensures scope { InScope (scope_of self.now) pool.new result }
        ensures net { IsNet pool.new result }
        ensures adds { Adds pool.old pool.new 1 }
        ensures kept { (s : Scope) (n : Net) → InScope s pool.old n → InScope s pool.new n }
        ensures nets { (n : Net) → IsNet pool.old n → IsNet pool.new n }
        ensures values { (env : Env) (n : Net) → IsNet pool.old n → net_value env pool.new n ≡ net_value env pool.old n }
    {
        let row = self.arrays()[array as usize];
        put(pool, Op::Read(array, addr.id), row.width, addr.level)
    }
}
