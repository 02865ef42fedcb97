ghost use Rattle.std.specs.Prelude.{◌≡◌, ℕ, ◌≤◌};
ghost use Rattle.hw_pool.specs.Meaning.{Env};
ghost use Rattle.hw_gates.specs.Places.{Step, value_in};
ghost use Rattle.isa_model.specs.Effects.{behind};
ghost use Rattle.plug_build.specs.Fits.{AreInputs, AreOutputs};
ghost use Rattle.plug_kit.specs.Made.{exec_list};
ghost use Rattle.service_ports.specs.Ports.{exec_ports, input_shapes, output_level, output_widths};
ghost use Rattle.service_reg.specs.declared.service.Service.TheVariants.{Exec};

use hw_gates::{add, lit};
use hw_pool::Pool;
use plug_build::Builder;
use plug_kit::{ExecInputs, wire_net};
use service_ports::ExecPorts;

/// The outputs of the unit over its inputs: it is done at once, goes on behind itself, and says `fence`.
pub(crate) fn fencei_nets(b: &Builder, pool: &mut Pool, w: ExecInputs) -> ExecPorts
    requires spare { 6 ≤ pool.old.spare }
    requires inputs { AreInputs b.now.design b.now.entry (exec_list w) (input_shapes Exec) }
    ensures inputs { (exec_ports result).inputs ≡ exec_list w }
    ensures outputs { AreOutputs b.now.design pool.new (output_level Exec) (exec_ports result).outputs (output_widths Exec) }
    ensures done { (env : Env) → value_in env pool.new result.done ≡ env.wires w.go }
    ensures next_pc { (env : Env) → value_in env pool.new result.next_pc ≡ behind (env.wires w.pc) }
    ensures trap { (env : Env) → value_in env pool.new result.trap ≡ 0 }
    ensures fence { (env : Env) → value_in env pool.new result.fence ≡ env.wires w.go }
    ensures step { Step pool.old pool.new 6 }
{
    let go = wire_net(b, pool, w.go);
    let pc = wire_net(b, pool, w.pc);
    let four = lit(pool, 32, 4);
    let next_pc = add(pool, pc, four);
    let bit = lit(pool, 1, 0);
    let zero = lit(pool, 32, 0);
    ExecPorts {
        go: w.go,
        row: w.row,
        pc: w.pc,
        word: w.word,
        a: w.a,
        b: w.b,
        clear: w.clear,
        done: go,
        value: zero,
        next_pc,
        trap: bit,
        cause: zero,
        tval: zero,
        fence: go,
    }
}
