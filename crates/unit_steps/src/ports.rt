ghost use Rattle.std.specs.Prelude.{◌≡◌, ℕ, ◌≤◌};
ghost use Rattle.core_words.specs.Values.{choose};
ghost use Rattle.hw_pool.specs.Meaning.{Env};
ghost use Rattle.hw_gates.specs.Places.{Is, IsIn, Step, value_in};
ghost use Rattle.hw_module.specs.Scope.{scope_of};
ghost use Rattle.isa_model.specs.Effects.{behind};
ghost use Rattle.plug_build.specs.Fits.{AreInputs, AreOutputs};
ghost use Rattle.plug_kit.specs.Made.{exec_list};
ghost use Rattle.service_ports.specs.Ports.{exec_ports, input_shapes, output_level, output_widths};
ghost use Rattle.service_reg.specs.declared.service.Service.TheVariants.{Exec};

use crate::unit::WorkNets;
use hw_gates::{add, lit, mux};
use hw_pool::Pool;
use plug_build::Builder;
use plug_kit::{ExecInputs, wire_net};
use service_ports::ExecPorts;

/// The ports of a unit with these inputs that is done where go is 1 and the instruction ends: `next_pc` is the pc behind, and all
/// but done and the value is 0.
pub(crate) fn working_ports(b: &Builder, pool: &mut Pool, w: ExecInputs, n: WorkNets) -> ExecPorts
    requires spare { 7 ≤ pool.old.spare }
    requires inputs { AreInputs b.now.design b.now.entry (exec_list w) (input_shapes Exec) }
    requires ends { Is pool.old n.ends 1 4 }
    requires value { Is pool.old n.value 32 4 }
    requires ends_scope { IsIn (scope_of b.now.design) pool.old n.ends }
    requires value_scope { IsIn (scope_of b.now.design) pool.old n.value }
    ensures inputs { (exec_ports result).inputs ≡ exec_list w }
    ensures outputs { AreOutputs b.now.design pool.new (output_level Exec) (exec_ports result).outputs (output_widths Exec) }
    ensures done { (env : Env) → value_in env pool.new result.done ≡ choose (env.wires w.go) (value_in env pool.old n.ends) 0 }
    ensures value { (env : Env) → value_in env pool.new result.value ≡ value_in env pool.old n.value }
    ensures next_pc { (env : Env) → value_in env pool.new result.next_pc ≡ behind (env.wires w.pc) }
    ensures trap { (env : Env) → value_in env pool.new result.trap ≡ 0 }
    ensures fence { (env : Env) → value_in env pool.new result.fence ≡ 0 }
    ensures step { Step pool.old pool.new 7 }
{
    let go = wire_net(b, pool, w.go);
    let pc = wire_net(b, pool, w.pc);
    let four = lit(pool, 32, 4);
    let next_pc = add(pool, pc, four);
    let bit = lit(pool, 1, 0);
    let zero = lit(pool, 32, 0);
    let done = mux(pool, go, n.ends, bit);
    ExecPorts {
        go: w.go,
        row: w.row,
        pc: w.pc,
        word: w.word,
        a: w.a,
        b: w.b,
        clear: w.clear,
        done,
        value: n.value,
        next_pc,
        trap: bit,
        cause: zero,
        tval: zero,
        fence: bit,
    }
}
