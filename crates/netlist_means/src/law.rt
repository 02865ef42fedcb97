ghost use Rattle.std.specs.Prelude.{Bool, List};
ghost use Rattle.hw_pool.specs.declared.node.Node.{Node};
ghost use Rattle.hw_pool.specs.Nodes.{PoolValue};
ghost use Rattle.hw_module.specs.Reached.{AreMarks};
ghost use Rattle.hw_module.specs.Rows.{ModuleValue};
ghost use Rattle.verilog_mean.specs.CorePorts.{HasCorePorts};
ghost use Rattle.verilog_netlist.specs.Meaning.{plain_of};
ghost use Rattle.module_netlist.specs.Lines.{netlist_of};
ghost use Rattle.module_netlist.specs.Means.{Means};
ghost use Rattle.module_netlist.specs.Written.{IsWritten};

/// The netlist of a checked module means the module. This does nothing: its contract is the law.
pub fn module_netlists_mean()
    ensures { (m : ModuleValue) (pool : PoolValue) (marks : List Bool) → IsWritten m pool → AreMarks m pool.nodes marks
        → Means m pool.nodes (plain_of (netlist_of m pool.nodes marks)) }
{}

/// The netlist of a module has the ports of a core. This does nothing: its contract is the law.
pub fn module_netlists_have_core_ports()
    ensures { (m : ModuleValue) (nodes : List Node) (marks : List Bool) → HasCorePorts (plain_of (netlist_of m nodes marks)) }
{}
