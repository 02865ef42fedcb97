ghost use Rattle.std.specs.Prelude.{◌≡◌, ◌↔◌, ℕ, ◌<◌, false, List, length};
ghost use Rattle.core_ports.specs.Ports.{is_input};
ghost use Rattle.hw_pool.specs.declared.node.Node.{Node};
ghost use Rattle.hw_pool.specs.Frame.{Adds};
ghost use Rattle.hw_pool.specs.Nodes.{PoolValue};
ghost use Rattle.hw_module.specs.Checked.{DriversFit, IsChecked};
ghost use Rattle.hw_module.specs.Cycle.{AreInputs, Held, IsHeld, held_at, out_value};
ghost use Rattle.hw_module.specs.Frame.{Grows};
ghost use Rattle.hw_module.specs.Ports.{port_at};
ghost use Rattle.hw_module.specs.Rows.{IsModule, ModuleValue};
ghost use Rattle.verilog_mean.specs.CorePorts.{HasCorePorts};
ghost use Rattle.verilog_mean.specs.Cycle.{State};
ghost use Rattle.verilog_mean.specs.Plain.{Plain};
ghost use Rattle.verilog_mean.specs.Run.{AllZero, Inputs, IsInput, IsStart, trace_of};
ghost use Rattle.module_netlist.specs.Means.{Means, held_by, ins_by};
ghost use Rattle.module_netlist.specs.Names.{port_name};
ghost use Rattle.module_agree.specs.Agree.{CyclesAgree, SameContents, SameTrees};
ghost use Rattle.module_agree.specs.Keeps.{KeepsTrees};
ghost use Rattle.module_agree.specs.Traces.{ShowsModule, numbered};

/// The law of agreeing modules: from the same contents, on the same inputs, both hold the same in each register and
/// array and give the same on each output, in each cycle. Only the first has to be checked. This does nothing: its
/// contract is the law.
pub fn agreeing_modules_are_one()
    ensures regs { (m : ModuleValue) (pool : PoolValue) (m' : ModuleValue) (nodes' : List Node) → IsModule m → IsChecked m pool
        → SameContents m m' → CyclesAgree m pool.nodes m' nodes'
        → (s : Held) → IsHeld m s → (ins : ℕ → ℕ → ℕ) → ((k : ℕ) → AreInputs (ins k))
        → (k r : ℕ) → r < length m.regs → (held_at m pool.nodes s ins k).regs r ≡ (held_at m' nodes' s ins k).regs r }
    ensures cells { (m : ModuleValue) (pool : PoolValue) (m' : ModuleValue) (nodes' : List Node) → IsModule m → IsChecked m pool
        → SameContents m m' → CyclesAgree m pool.nodes m' nodes'
        → (s : Held) → IsHeld m s → (ins : ℕ → ℕ → ℕ) → ((k : ℕ) → AreInputs (ins k))
        → (k a : ℕ) → a < length m.arrays → (held_at m pool.nodes s ins k).cells a ≡ (held_at m' nodes' s ins k).cells a }
    ensures outs { (m : ModuleValue) (pool : PoolValue) (m' : ModuleValue) (nodes' : List Node) → IsModule m → IsChecked m pool
        → SameContents m m' → CyclesAgree m pool.nodes m' nodes'
        → (s : Held) → IsHeld m s → (ins : ℕ → ℕ → ℕ) → ((k : ℕ) → AreInputs (ins k))
        → (k p : ℕ) → p < 30 → is_input (port_at p) ≡ false
        → out_value m pool.nodes (held_at m pool.nodes s ins k) (ins k) p ≡ out_value m' nodes' (held_at m' nodes' s ins k) (ins k) p }
{}

/// The law of the same trees: modules with the same rows, whose drivers have the same trees, hold the same contents and
/// have the same cycles, whatever the numbers of their nodes. This does nothing: its contract is the law.
pub fn same_trees_agree()
    ensures contents { (m : ModuleValue) (nodes : List Node) (m' : ModuleValue) (nodes' : List Node) → SameTrees m nodes m' nodes' → SameContents m m' }
    ensures cycles { (m : ModuleValue) (nodes : List Node) (m' : ModuleValue) (nodes' : List Node) → SameTrees m nodes m' nodes' → CyclesAgree m nodes m' nodes' }
{}

/// The law of agreeing texts: two trees that mean modules whose cycles agree may start from the same contents, and
/// those that are all 0 are the same. From the same contents, on the same inputs, they show the same on each output in
/// each cycle, and on each port if both have the ports of a core. Only the first module has to be checked. This does
/// nothing: its contract is the law.
pub fn agreeing_texts_are_one()
    ensures start { (m : ModuleValue) (nodes : List Node) (m' : ModuleValue) (nodes' : List Node) → SameContents m m'
        → (t : Plain) (t' : Plain) → Means m nodes t → Means m' nodes' t' → (c : State) → IsStart t.items c ↔ IsStart t'.items c }
    ensures zeros { (m : ModuleValue) (nodes : List Node) (m' : ModuleValue) (nodes' : List Node) → SameContents m m'
        → (t : Plain) (t' : Plain) → Means m nodes t → Means m' nodes' t' → (c : State) → AllZero t.items c ↔ AllZero t'.items c }
    ensures outs { (m : ModuleValue) (pool : PoolValue) (m' : ModuleValue) (nodes' : List Node) → IsModule m → IsChecked m pool
        → SameContents m m' → CyclesAgree m pool.nodes m' nodes'
        → (t : Plain) (t' : Plain) → Means m pool.nodes t → Means m' nodes' t'
        → (c : State) → IsStart t.items c → (ins : Inputs) → ((k : ℕ) → AreInputs (ins_by (ins k)))
        → (k p : ℕ) → p < 30 → is_input (port_at p) ≡ false → trace_of t c ins k (port_name p) ≡ trace_of t' c ins k (port_name p) }
    ensures ports { (m : ModuleValue) (pool : PoolValue) (m' : ModuleValue) (nodes' : List Node) → IsModule m → IsChecked m pool
        → SameContents m m' → CyclesAgree m pool.nodes m' nodes'
        → (t : Plain) (t' : Plain) → Means m pool.nodes t → Means m' nodes' t'
        → (c : State) → IsStart t.items c → (ins : Inputs) → ((k : ℕ) → AreInputs (ins_by (ins k)))
        → HasCorePorts t → HasCorePorts t'
        → (k p : ℕ) → p < 30 → trace_of t c ins k (port_name p) ≡ trace_of t' c ins k (port_name p) }
{}

/// The law of traces: a text with the ports of a core shows on them what the module that it means has there, from any contents on
/// any inputs, in each cycle. The inputs that a run of the text may have are within the widths of the ports. This does
/// nothing: its contract is the law.
pub fn texts_show_modules()
    ensures shows { (m : ModuleValue) (pool : PoolValue) → DriversFit m pool → (t : Plain) → Means m pool.nodes t → HasCorePorts t
        → (c : State) (ins : Inputs) → ShowsModule m pool.nodes (held_by m c) (numbered ins) (trace_of t c ins) }
    ensures inputs { (t : Plain) → HasCorePorts t → (ins : Inputs) → IsInput t ins → (k : ℕ) → AreInputs (numbered ins k) }
{}

/// The law of growth: while nodes are added to the pool, and things and drivers to the module, each row stays at its
/// number, and each driver that is there keeps its tree. This does nothing: its contract is the law.
pub fn grown_modules_keep_trees()
    ensures { (m m' : ModuleValue) (pool pool' : PoolValue) (n k : ℕ) → DriversFit m pool → Grows m m' n → Adds pool pool' k
        → KeepsTrees m pool.nodes m' pool'.nodes }
{}
