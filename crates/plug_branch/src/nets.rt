ghost use Rattle.std.specs.Prelude.{◌≡◌, ℕ, ◌≤◌};
ghost use Rattle.hw_pool.specs.Meaning.{Env};
ghost use Rattle.hw_gates.specs.Places.{Step, value_in};
ghost use Rattle.isa_model.specs.Effects.{behind};
ghost use Rattle.plug_build.specs.Fits.{AreInputs, AreOutputs};
ghost use Rattle.plug_kit.specs.Made.{exec_list};
ghost use Rattle.service_ports.specs.Ports.{exec_ports, input_shapes, output_level, output_widths};
ghost use Rattle.service_reg.specs.declared.service.Service.TheVariants.{Exec};
ghost use Rattle.plug_branch.specs.Machine.{next_of, trap_of};

use crate::circuit::next_flow;
use hw_gates::lit;
use hw_pool::Pool;
use plug_build::Builder;
use plug_kit::{ExecInputs, wire_net};
use service_ports::ExecPorts;

/// The outputs of the unit over its inputs: it is done at once.
pub(crate) fn branch_nets(b: &Builder, pool: &mut Pool, w: ExecInputs) -> ExecPorts
    requires spare { 103 ≤ pool.old.spare }
    requires inputs { AreInputs b.now.design b.now.entry (exec_list w) (input_shapes Exec) }
    ensures inputs { (exec_ports result).inputs ≡ exec_list w }
    ensures outputs { AreOutputs b.now.design pool.new (output_level Exec) (exec_ports result).outputs (output_widths Exec) }
    ensures done { (env : Env) → value_in env pool.new result.done ≡ env.wires w.go }
    ensures value { (env : Env) → value_in env pool.new result.value ≡ behind (env.wires w.pc) }
    ensures next_pc { (env : Env) → value_in env pool.new result.next_pc ≡ next_of (env.wires w.word) (env.wires w.pc) (env.wires w.a) (env.wires w.b) }
    ensures trap { (env : Env) → value_in env pool.new result.trap ≡ trap_of (env.wires w.word) (env.wires w.pc) (env.wires w.a) (env.wires w.b) }
    ensures cause { (env : Env) → value_in env pool.new result.cause ≡ 0 }
    ensures tval { (env : Env) → value_in env pool.new result.tval ≡ next_of (env.wires w.word) (env.wires w.pc) (env.wires w.a) (env.wires w.b) }
    ensures fence { (env : Env) → value_in env pool.new result.fence ≡ 0 }
    ensures step { Step pool.old pool.new 103 }
{
    let go = wire_net(b, pool, w.go);
    let word = wire_net(b, pool, w.word);
    let pc = wire_net(b, pool, w.pc);
    let left = wire_net(b, pool, w.a);
    let right = wire_net(b, pool, w.b);
    let flow = next_flow(pool, word, pc, left, right);
    let bit = lit(pool, 1, 0);
    let zero = lit(pool, 32, 0);
    ExecPorts {
        go: w.go,
        row: w.row,
        pc: w.pc,
        word: w.word,
        a: w.a,
        b: w.b,
        clear: w.clear,
        done: go,
        value: flow.value,
        next_pc: flow.next_pc,
        trap: flow.trap,
        cause: zero,
        tval: flow.next_pc,
        fence: bit,
    }
}
