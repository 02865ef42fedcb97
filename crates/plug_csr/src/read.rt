ghost use Rattle.std.specs.Prelude.{◌≡◌, ℕ, ◌+◌, ◌<◌, ◌≤◌, ◌^◌, length};
ghost use Rattle.hw_pool.specs.Meaning.{Env};
ghost use Rattle.hw_gates.specs.Places.{Step, value_in};
ghost use Rattle.hw_module.specs.Scope.{scope_of};
ghost use Rattle.service_reg.specs.declared.service.Service.TheVariants.{Exec, System};
ghost use Rattle.service_ports.specs.Ports.{input_shapes};
ghost use Rattle.plug_build.specs.Fits.{AreInputs};
ghost use Rattle.plug_kit.specs.Made.{exec_list, system_list};
ghost use Rattle.csr_nets.specs.Nets.{AreLines, AreLinesIn, IsCycle, IsCycleIn, IsGiven, IsGivenIn, IsHeld, IsHeldIn, IsTold, IsToldIn, seen_in};
ghost use Rattle.plug_csr.specs.Cycle.{now_at};
ghost use Rattle.plug_csr.specs.Registers.{AreOpen};

use csr_nets::{Cycle, Given, Held, Lines, Told};
use hw_pool::Pool;
use plug_build::Builder;
use plug_kit::{ExecInputs, SystemInputs, port_net, reg_net, wire_net};

/// What the registers hold, from `first` on.
fn read_regs(b: &Builder, pool: &mut Pool, first: u32) -> Held
    requires spare { 10 ≤ pool.old.spare }
    requires few { length b.now.design.regs < 2 ^ 32 }
    requires are_open { AreOpen b.now.design b.now.entry first }
    ensures on { (env : Env) → value_in env pool.new result.on ≡ env.regs first }
    ensures was { (env : Env) → value_in env pool.new result.was ≡ env.regs (first + 1) }
    ensures soft { (env : Env) → value_in env pool.new result.soft ≡ env.regs (first + 2) }
    ensures timer { (env : Env) → value_in env pool.new result.timer ≡ env.regs (first + 3) }
    ensures outer { (env : Env) → value_in env pool.new result.outer ≡ env.regs (first + 4) }
    ensures tvec { (env : Env) → value_in env pool.new result.tvec ≡ env.regs (first + 5) }
    ensures epc { (env : Env) → value_in env pool.new result.epc ≡ env.regs (first + 6) }
    ensures scratch { (env : Env) → value_in env pool.new result.scratch ≡ env.regs (first + 7) }
    ensures cause { (env : Env) → value_in env pool.new result.cause ≡ env.regs (first + 8) }
    ensures tval { (env : Env) → value_in env pool.new result.tval ≡ env.regs (first + 9) }
    ensures nets { IsHeld pool.new result }
    ensures scope { IsHeldIn (scope_of b.now.design) pool.new result }
    ensures step { Step pool.old pool.new 10 }
{
    let on = reg_net(b, pool, first);
    let was = reg_net(b, pool, first + 1);
    let soft = reg_net(b, pool, first + 2);
    let timer = reg_net(b, pool, first + 3);
    let outer = reg_net(b, pool, first + 4);
    let tvec = reg_net(b, pool, first + 5);
    let epc = reg_net(b, pool, first + 6);
    let scratch = reg_net(b, pool, first + 7);
    let cause = reg_net(b, pool, first + 8);
    let tval = reg_net(b, pool, first + 9);
    Held {
        on,
        was,
        soft,
        timer,
        outer,
        tvec,
        epc,
        scratch,
        cause,
        tval,
    }
}

/// What the unit is given.
fn read_inputs(b: &Builder, pool: &mut Pool, w: ExecInputs) -> Given
    requires spare { 5 ≤ pool.old.spare }
    requires inputs { AreInputs b.now.design b.now.entry (exec_list w) (input_shapes Exec) }
    ensures go { (env : Env) → value_in env pool.new result.go ≡ env.wires w.go }
    ensures pc { (env : Env) → value_in env pool.new result.pc ≡ env.wires w.pc }
    ensures word { (env : Env) → value_in env pool.new result.word ≡ env.wires w.word }
    ensures a { (env : Env) → value_in env pool.new result.a ≡ env.wires w.a }
    ensures clear { (env : Env) → value_in env pool.new result.clear ≡ env.wires w.clear }
    ensures nets { IsGiven pool.new result }
    ensures scope { IsGivenIn (scope_of b.now.design) pool.new result }
    ensures step { Step pool.old pool.new 5 }
{
    let go = wire_net(b, pool, w.go);
    let pc = wire_net(b, pool, w.pc);
    let word = wire_net(b, pool, w.word);
    let left = wire_net(b, pool, w.a);
    let clear = wire_net(b, pool, w.clear);
    Given {
        go,
        pc,
        word,
        a: left,
        clear,
    }
}

/// What the unit is told of an event.
fn read_told(b: &Builder, pool: &mut Pool, y: SystemInputs) -> Told
    requires spare { 5 ≤ pool.old.spare }
    requires inputs { AreInputs b.now.design b.now.entry (system_list y) (input_shapes System) }
    ensures event { (env : Env) → value_in env pool.new result.event ≡ env.wires y.event }
    ensures kind { (env : Env) → value_in env pool.new result.kind ≡ env.wires y.kind }
    ensures pc { (env : Env) → value_in env pool.new result.pc ≡ env.wires y.pc }
    ensures cause { (env : Env) → value_in env pool.new result.cause ≡ env.wires y.cause }
    ensures tval { (env : Env) → value_in env pool.new result.tval ≡ env.wires y.tval }
    ensures nets { IsTold pool.new result }
    ensures scope { IsToldIn (scope_of b.now.design) pool.new result }
    ensures step { Step pool.old pool.new 5 }
{
    let event = wire_net(b, pool, y.event);
    let kind = wire_net(b, pool, y.kind);
    let pc = wire_net(b, pool, y.pc);
    let cause = wire_net(b, pool, y.cause);
    let tval = wire_net(b, pool, y.tval);
    Told {
        event,
        kind,
        pc,
        cause,
        tval,
    }
}

/// The interrupt lines.
#[tactic(auto, unfolding(hw_module::specs::Ports::port_at))]
fn read_lines(b: &Builder, pool: &mut Pool) -> Lines
    requires spare { 3 ≤ pool.old.spare }
    ensures soft { (env : Env) → value_in env pool.new result.soft ≡ env.inputs 17 }
    ensures timer { (env : Env) → value_in env pool.new result.timer ≡ env.inputs 18 }
    ensures outer { (env : Env) → value_in env pool.new result.outer ≡ env.inputs 19 }
    ensures nets { AreLines pool.new result }
    ensures scope { AreLinesIn (scope_of b.now.design) pool.new result }
    ensures step { Step pool.old pool.new 3 }
{
    let soft = port_net(b, pool, 17);
    let timer = port_net(b, pool, 18);
    let outer = port_net(b, pool, 19);
    Lines { soft, timer, outer }
}

/// What is read in a cycle.
pub(crate) fn read_cycle(
    b: &Builder,
    pool: &mut Pool,
    w: ExecInputs,
    y: SystemInputs,
    first: u32,
) -> Cycle
    requires spare { 23 ≤ pool.old.spare }
    requires few { length b.now.design.regs < 2 ^ 32 }
    requires are_open { AreOpen b.now.design b.now.entry first }
    requires inputs { AreInputs b.now.design b.now.entry (exec_list w) (input_shapes Exec) }
    requires told { AreInputs b.now.design b.now.entry (system_list y) (input_shapes System) }
    ensures seen { (env : Env) → seen_in env pool.new result ≡ now_at first (exec_list w) (system_list y) env }
    ensures nets { IsCycle pool.new result }
    ensures scope { IsCycleIn (scope_of b.now.design) pool.new result }
    ensures step { Step pool.old pool.new 23 }
{
    let held = read_regs(b, pool, first);
    let given = read_inputs(b, pool, w);
    let told = read_told(b, pool, y);
    let lines = read_lines(b, pool);
    Cycle {
        held,
        lines,
        given,
        told,
    }
}
