ghost use Rattle.std.specs.Prelude.{◌≡◌, ℕ, ◌≤◌};
ghost use Rattle.hw_pool.specs.Meaning.{Env};
ghost use Rattle.hw_gates.specs.Places.{Is, IsIn, Step, value_in};
ghost use Rattle.hw_module.specs.Scope.{scope_of};
ghost use Rattle.plug_build.specs.Fits.{AreInputs, AreOutputs};
ghost use Rattle.plug_kit.specs.Made.{exec_list};
ghost use Rattle.service_ports.specs.Ports.{exec_ports, input_shapes, output_level, output_widths};
ghost use Rattle.service_reg.specs.declared.service.Service.TheVariants.{Exec};
ghost use Rattle.unit_parts.specs.Computing.{Shows};

use hw_expr::Net;
use hw_gates::{add, lit};
use hw_pool::Pool;
use plug_build::Builder;
use plug_kit::{ExecInputs, wire_net};
use service_ports::ExecPorts;

/// The ports of a unit with these inputs that is done at once with a value of 32 bits and never traps: `done` is `go`, `next_pc` the
/// pc behind, and all else is 0. It makes at most 6 nodes.
pub fn computing_ports(b: &Builder, pool: &mut Pool, w: ExecInputs, value: Net) -> ExecPorts
    requires spare { 6 ≤ pool.old.spare }
    requires inputs { AreInputs b.now.design b.now.entry (exec_list w) (input_shapes Exec) }
    requires value { Is pool.old value 32 4 }
    requires scope { IsIn (scope_of b.now.design) pool.old value }
    ensures inputs { (exec_ports result).inputs ≡ exec_list w }
    ensures outputs { AreOutputs b.now.design pool.new (output_level Exec) (exec_ports result).outputs (output_widths Exec) }
    ensures shows { (f : (word pc a b : ℕ) → ℕ) → ((env : Env) → value_in env pool.old value ≡ f (env.wires w.word) (env.wires w.pc) (env.wires w.a) (env.wires w.b))
        → Shows f pool.new w result }
    ensures step { Step pool.old pool.new 6 }
{
    let go = wire_net(b, pool, w.go);
    let pc = wire_net(b, pool, w.pc);
    let four = lit(pool, 32, 4);
    let next_pc = add(pool, pc, four);
    let bit = lit(pool, 1, 0);
    let zero = lit(pool, 32, 0);
    ExecPorts {
        go: w.go,
        row: w.row,
        pc: w.pc,
        word: w.word,
        a: w.a,
        b: w.b,
        clear: w.clear,
        done: go,
        value,
        next_pc,
        trap: bit,
        cause: zero,
        tval: zero,
        fence: bit,
    }
}
