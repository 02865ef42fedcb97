ghost use Rattle.std.specs.Prelude.{◌≡◌, ◌≤◌, Bool, List, length};
ghost use Rattle.core_words.specs.Names.{same_name};
ghost use Rattle.hw_pool.specs.declared.node.Node.{Node};
ghost use Rattle.hw_pool.specs.Nodes.{PoolValue};
ghost use Rattle.hw_module.specs.Reached.{AreMarks};
ghost use Rattle.hw_module.specs.Rows.{IsModule, ModuleValue};
ghost use Rattle.verilog_netlist.specs.Writable.{IsWritable};
ghost use Rattle.module_netlist.specs.Lines.{netlist_of};
ghost use Rattle.module_netlist.specs.Names.{Thing, ThingIn, name_in, same_thing};
ghost use Rattle.module_netlist.specs.Written.{IsWritten, thing_count};

/// Two things of a module have one name exactly where they are one. This does nothing: its contract is the law.
pub fn names_differ()
    ensures { (m : ModuleValue) (nodes : List Node) → IsModule m → length m.wires ≤ 65535 → length m.regs ≤ 65535 → length m.arrays ≤ 65535 → length nodes ≤ 65535
        → (a b : Thing) → ThingIn m nodes a → ThingIn m nodes b → same_name (name_in m a) (name_in m b) ≡ same_thing a b }
{}

/// The netlist of a checked module can be written, and has no more lines than the module has things. This does
/// nothing: its contract is the law.
pub fn netlists_are_writable()
    ensures writable { (m : ModuleValue) (pool : PoolValue) (marks : List Bool) → IsWritten m pool → AreMarks m pool.nodes marks → IsWritable (netlist_of m pool.nodes marks) }
    ensures lines { (m : ModuleValue) (pool : PoolValue) (marks : List Bool) → IsWritten m pool → length (netlist_of m pool.nodes marks).lines ≤ thing_count m pool }
{}
