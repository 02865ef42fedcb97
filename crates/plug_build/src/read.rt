ghost use Rattle.std.specs.Prelude.{◌≡◌, ◌<◌, ◌≤◌, get_or, length};
ghost use Rattle.core_ports.specs.Ports.{width_of};
ghost use Rattle.hw_pool.specs.Frame.{Adds};
ghost use Rattle.hw_pool.specs.Meaning.{Env};
ghost use Rattle.hw_pool.specs.Scope.{Scope};
ghost use Rattle.hw_expr.specs.declared.net.Net.{Net};
ghost use Rattle.hw_expr.specs.Nets.{InScope, IsNet, net_value};
ghost use Rattle.hw_module.specs.Fits.{IsReadable};
ghost use Rattle.hw_module.specs.Ports.{port_at};
ghost use Rattle.hw_module.specs.Rows.{array_at, reg_at, wire_at};
ghost use Rattle.hw_module.specs.Scope.{scope_of};

use crate::Builder;
use hw_expr::Net;
use hw_pool::Pool;

impl Builder {
    /// The value of an input port other than the clock.
    #[tactic(auto, using(crate::proofs::Steps::scope_step))]
    pub fn input(&self, pool: &mut Pool, number: u32) -> Net
        requires spare { 1 ≤ pool.old.spare }
        requires there { IsReadable number }
        ensures value { (env : Env) → net_value env pool.new result ≡ env.inputs number }
        ensures width { result.width ≡ width_of (port_at number) }
        ensures level { result.level ≡ 0 }
        ensures scope { InScope (scope_of self.now.design) pool.new result }
        ensures net { IsNet pool.new result }
        ensures adds { Adds pool.old pool.new 1 }
        ensures kept { (s : Scope) (n : Net) → InScope s pool.old n → InScope s pool.new n }
        ensures nets { (n : Net) → IsNet pool.old n → IsNet pool.new n }
        ensures values { (env : Env) (n : Net) → IsNet pool.old n → net_value env pool.new n ≡ net_value env pool.old n }
    {
        self.module.input(pool, number)
    }

    /// The value of a forward wire.
    #[tactic(auto, using(crate::proofs::Steps::scope_step))]
    pub fn wire_net(&self, pool: &mut Pool, wire: u32) -> Net
        requires spare { 1 ≤ pool.old.spare }
        requires there { wire < length self.now.design.wires }
        ensures value { (env : Env) → net_value env pool.new result ≡ env.wires wire }
        ensures width { result.width ≡ (wire_at self.now.design.wires wire).width }
        ensures level { result.level ≡ (wire_at self.now.design.wires wire).level }
        ensures scope { InScope (scope_of self.now.design) pool.new result }
        ensures net { IsNet pool.new result }
        ensures adds { Adds pool.old pool.new 1 }
        ensures kept { (s : Scope) (n : Net) → InScope s pool.old n → InScope s pool.new n }
        ensures nets { (n : Net) → IsNet pool.old n → IsNet pool.new n }
        ensures values { (env : Env) (n : Net) → IsNet pool.old n → net_value env pool.new n ≡ net_value env pool.old n }
    {
        self.module.wire_net(pool, wire)
    }

    /// The value of a register.
    #[tactic(auto, using(crate::proofs::Steps::scope_step))]
    pub fn reg_net(&self, pool: &mut Pool, reg: u32) -> Net
        requires spare { 1 ≤ pool.old.spare }
        requires there { reg < length self.now.design.regs }
        ensures value { (env : Env) → net_value env pool.new result ≡ env.regs reg }
        ensures width { result.width ≡ (reg_at self.now.design.regs reg).width }
        ensures level { result.level ≡ 0 }
        ensures scope { InScope (scope_of self.now.design) pool.new result }
        ensures net { IsNet pool.new result }
        ensures adds { Adds pool.old pool.new 1 }
        ensures kept { (s : Scope) (n : Net) → InScope s pool.old n → InScope s pool.new n }
        ensures nets { (n : Net) → IsNet pool.old n → IsNet pool.new n }
        ensures values { (env : Env) (n : Net) → IsNet pool.old n → net_value env pool.new n ≡ net_value env pool.old n }
    {
        self.module.reg_net(pool, reg)
    }

    /// The cell of an array that `addr` names.
    #[tactic(auto, using(crate::proofs::Steps::scope_step))]
    pub fn read(&self, pool: &mut Pool, array: u32, addr: Net) -> Net
        requires spare { 1 ≤ pool.old.spare }
        requires there { array < length self.now.design.arrays }
        requires addr { InScope (scope_of self.now.design) pool.old addr }
        requires bits { addr.width ≡ (array_at self.now.design.arrays array).bits }
        ensures value { (env : Env) → net_value env pool.new result ≡ get_or (env.cells array) (net_value env pool.old addr) 0 }
        ensures width { result.width ≡ (array_at self.now.design.arrays array).width }
        ensures level { result.level ≡ addr.level }
        ensures scope { InScope (scope_of self.now.design) pool.new result }
        ensures net { IsNet pool.new result }
        ensures adds { Adds pool.old pool.new 1 }
        ensures kept { (s : Scope) (n : Net) → InScope s pool.old n → InScope s pool.new n }
        ensures nets { (n : Net) → IsNet pool.old n → IsNet pool.new n }
        ensures values { (env : Env) (n : Net) → IsNet pool.old n → net_value env pool.new n ≡ net_value env pool.old n }
    {
        self.module.read(pool, array, addr)
    }
}
