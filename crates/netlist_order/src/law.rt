ghost use Rattle.std.specs.Prelude.{ℕ, Bool, List};
ghost use Rattle.hw_pool.specs.Nodes.{PoolValue};
ghost use Rattle.hw_module.specs.Reached.{AreMarks};
ghost use Rattle.hw_module.specs.Rows.{ModuleValue};
ghost use Rattle.verilog_mean.specs.Order.{IsRanked};
ghost use Rattle.verilog_netlist.specs.Meaning.{plain_of};
ghost use Rattle.module_netlist.specs.Lines.{netlist_of};
ghost use Rattle.module_netlist.specs.Written.{IsWritten};

/// Each name of the netlist of a checked module has a rank, above those of the names in its driver, and no rank is above
/// the number of the items. This does nothing: its contract is the law.
pub fn module_netlists_are_ranked()
    ensures { (m : ModuleValue) (pool : PoolValue) (marks : List Bool) → IsWritten m pool → AreMarks m pool.nodes marks
        → (rank : List ℕ → ℕ) × IsRanked (plain_of (netlist_of m pool.nodes marks)) rank }
{}
