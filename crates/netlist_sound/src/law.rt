ghost use Rattle.std.specs.Prelude.{Bool, List, ℕ};
ghost use Rattle.hw_pool.specs.Nodes.{PoolValue};
ghost use Rattle.hw_module.specs.Reached.{AreMarks};
ghost use Rattle.hw_module.specs.Rows.{ModuleValue};
ghost use Rattle.verilog_mean.specs.Sound.{IsSound};
ghost use Rattle.verilog_netlist.specs.Places.{tree_of};
ghost use Rattle.module_netlist.specs.Lines.{netlist_of};
ghost use Rattle.module_netlist.specs.Written.{IsWritten};

/// The netlist of a checked module meets the nine rules, wherever its tokens stand. This does nothing: its contract
/// is the law.
pub fn module_netlists_are_sound()
    ensures { (m : ModuleValue) (pool : PoolValue) (marks : List Bool) → IsWritten m pool → AreMarks m pool.nodes marks
        → (p : ℕ → ℕ) → IsSound (tree_of p (netlist_of m pool.nodes marks)) }
{}
