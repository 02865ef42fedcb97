ghost use Rattle.std.specs.Prelude.{◌≡◌, ℕ, ◌+◌, ◌<◌, ◌≤◌, ◌^◌, length};
ghost use Rattle.hw_pool.specs.Meaning.{Env};
ghost use Rattle.hw_gates.specs.Places.{Step, value_in};
ghost use Rattle.hw_module.specs.Scope.{scope_of};
ghost use Rattle.service_reg.specs.declared.service.Service.TheVariants.{Exec};
ghost use Rattle.service_ports.specs.Ports.{input_shapes};
ghost use Rattle.plug_build.specs.Fits.{AreInputs};
ghost use Rattle.plug_kit.specs.Made.{exec_list};
ghost use Rattle.plug_dbus.specs.Nets.{IsCycle, IsCycleIn, IsGiven, IsGivenIn, IsHeard, IsHeardIn, IsHeld, IsHeldIn, now_at, seen_in};
ghost use Rattle.plug_dbus.specs.Registers.{AreOpen};

use crate::unit::{Cycle, Given, Heard, Held};
use hw_pool::Pool;
use plug_build::Builder;
use plug_kit::{ExecInputs, port_net, reg_net, wire_net};

/// What the registers hold, from `first` on.
fn read_regs(b: &Builder, pool: &mut Pool, first: u32) -> Held
    requires spare { 6 ≤ pool.old.spare }
    requires few { length b.now.design.regs < 2 ^ 32 }
    requires are_open { AreOpen b.now.design b.now.entry first }
    ensures given { (env : Env) → value_in env pool.new result.given ≡ env.regs first }
    ensures owed { (env : Env) → value_in env pool.new result.owed ≡ env.regs (first + 1) }
    ensures address { (env : Env) → value_in env pool.new result.address ≡ env.regs (first + 2) }
    ensures writes { (env : Env) → value_in env pool.new result.writes ≡ env.regs (first + 3) }
    ensures payload { (env : Env) → value_in env pool.new result.payload ≡ env.regs (first + 4) }
    ensures mask { (env : Env) → value_in env pool.new result.mask ≡ env.regs (first + 5) }
    ensures nets { IsHeld pool.new result }
    ensures scope { IsHeldIn (scope_of b.now.design) pool.new result }
    ensures step { Step pool.old pool.new 6 }
{
    let given = reg_net(b, pool, first);
    let owed = reg_net(b, pool, first + 1);
    let address = reg_net(b, pool, first + 2);
    let writes = reg_net(b, pool, first + 3);
    let payload = reg_net(b, pool, first + 4);
    let mask = reg_net(b, pool, first + 5);
    Held {
        given,
        owed,
        address,
        writes,
        payload,
        mask,
    }
}

/// What the unit is given.
fn read_inputs(b: &Builder, pool: &mut Pool, w: ExecInputs) -> Given
    requires spare { 6 ≤ pool.old.spare }
    requires inputs { AreInputs b.now.design b.now.entry (exec_list w) (input_shapes Exec) }
    ensures go { (env : Env) → value_in env pool.new result.go ≡ env.wires w.go }
    ensures pc { (env : Env) → value_in env pool.new result.pc ≡ env.wires w.pc }
    ensures word { (env : Env) → value_in env pool.new result.word ≡ env.wires w.word }
    ensures a { (env : Env) → value_in env pool.new result.a ≡ env.wires w.a }
    ensures b { (env : Env) → value_in env pool.new result.b ≡ env.wires w.b }
    ensures clear { (env : Env) → value_in env pool.new result.clear ≡ env.wires w.clear }
    ensures nets { IsGiven pool.new result }
    ensures scope { IsGivenIn (scope_of b.now.design) pool.new result }
    ensures step { Step pool.old pool.new 6 }
{
    let go = wire_net(b, pool, w.go);
    let pc = wire_net(b, pool, w.pc);
    let word = wire_net(b, pool, w.word);
    let left = wire_net(b, pool, w.a);
    let right = wire_net(b, pool, w.b);
    let clear = wire_net(b, pool, w.clear);
    Given {
        go,
        pc,
        word,
        a: left,
        b: right,
        clear,
    }
}

/// What the data bus says.
#[tactic(auto, unfolding(hw_module::specs::Ports::port_at))]
fn read_bus(b: &Builder, pool: &mut Pool) -> Heard
    requires spare { 4 ≤ pool.old.spare }
    ensures ready { (env : Env) → value_in env pool.new result.ready ≡ env.inputs 9 }
    ensures answered { (env : Env) → value_in env pool.new result.answered ≡ env.inputs 14 }
    ensures failed { (env : Env) → value_in env pool.new result.failed ≡ env.inputs 15 }
    ensures reply { (env : Env) → value_in env pool.new result.reply ≡ env.inputs 16 }
    ensures nets { IsHeard pool.new result }
    ensures scope { IsHeardIn (scope_of b.now.design) pool.new result }
    ensures step { Step pool.old pool.new 4 }
{
    let ready = port_net(b, pool, 9);
    let answered = port_net(b, pool, 14);
    let failed = port_net(b, pool, 15);
    let reply = port_net(b, pool, 16);
    Heard {
        ready,
        answered,
        failed,
        reply,
    }
}

/// What is read in a cycle.
pub(crate) fn read_cycle(b: &Builder, pool: &mut Pool, w: ExecInputs, first: u32) -> Cycle
    requires spare { 16 ≤ pool.old.spare }
    requires few { length b.now.design.regs < 2 ^ 32 }
    requires are_open { AreOpen b.now.design b.now.entry first }
    requires inputs { AreInputs b.now.design b.now.entry (exec_list w) (input_shapes Exec) }
    ensures seen { (env : Env) → seen_in env pool.new result ≡ now_at first (exec_list w) env }
    ensures nets { IsCycle pool.new result }
    ensures scope { IsCycleIn (scope_of b.now.design) pool.new result }
    ensures step { Step pool.old pool.new 16 }
{
    let held = read_regs(b, pool, first);
    let given = read_inputs(b, pool, w);
    let heard = read_bus(b, pool);
    Cycle { held, given, heard }
}
