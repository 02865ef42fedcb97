ghost use Rattle.std.specs.Prelude.{All, ◌≡◌, ℕ, List};
ghost use Rattle.core_ports.specs.Trace.{Trace, lines_at};
ghost use Rattle.bus_law.specs.Memory.{Memory, IsMemory};
ghost use Rattle.isa_model.specs.Machine.{Set, Machine};
ghost use Rattle.isa_follow.specs.Follows.{Follows};
ghost use Rattle.verilog_tree.specs.declared.tree.Tree.{Tree};
ghost use Rattle.verilog_mean.specs.Bounds.{IsBounded};
ghost use Rattle.verilog_mean.specs.CorePorts.{HasCorePorts};
ghost use Rattle.verilog_mean.specs.Cycle.{State};
ghost use Rattle.verilog_mean.specs.Erase.{plain_tree};
ghost use Rattle.verilog_mean.specs.Plain.{Plain};
ghost use Rattle.verilog_mean.specs.Run.{IsStart};
ghost use Rattle.verilog_mean.specs.Sound.{IsSound};
ghost use Rattle.core_sim.specs.declared.ended.IrqSpan.{IrqSpan};
ghost use Rattle.core_sim.specs.Joint.{run_of};
ghost use Rattle.core_sim.specs.Output.{Agrees};
ghost use Rattle.core_sim.specs.Over.{IsOverBuses};
ghost use Rattle.core_sim.specs.Spans.{IsSpan, lines_of};

/// Where a run follows the machine, its host text, its lines and its exit are those of the machine's run. This does
/// nothing: its contract is the law.
pub fn outputs_agree()
    ensures { (s : Set) (start : Machine) (run : Trace) (n : ℕ) (f : Follows s start run n) → Agrees f }
{}

/// The buses of each run are honest over its memory, and in time where the core keeps its duties: for each sound tree
/// with a core's ports, any contents that fit, any delays and any interrupt lines. Where the lines are those of spans,
/// the core is given these and no other. This does nothing: its contract is the law.
pub fn answered_runs_are_honest()
    ensures over { (t : Tree) (contents : State) (memory : Memory) (delays : List ℕ) (lines : ℕ → ℕ) → IsBounded t → IsSound t
        → HasCorePorts (plain_tree t) → IsStart (plain_tree t).items contents → IsMemory memory
        → IsOverBuses (plain_tree t) contents memory delays lines }
    ensures lines { (m : Plain) (contents : State) (memory : Memory) (delays : List ℕ) (irqs : List IrqSpan) → HasCorePorts m
        → All IsSpan irqs → (k : ℕ) → lines_at (run_of m contents memory delays (lines_of irqs)) k ≡ lines_of irqs k }
{}
