ghost use Rattle.std.specs.Prelude.{◌≡◌, ℕ, ◌<◌, length};
ghost use Rattle.hw_pool.specs.Meaning.{Within};
ghost use Rattle.hw_pool.specs.Nodes.{IsPool, PoolValue};
ghost use Rattle.hw_pool.specs.Trees.{Tree};
ghost use Rattle.hw_module.specs.Checked.{DriversFit};
ghost use Rattle.hw_module.specs.Cycle.{
  AreInputs,
  Held,
  IsHeld,
  WiresWithin,
  cycle_env,
  driven_value,
  env_of,
  held_at,
  wire_value,
};
ghost use Rattle.hw_module.specs.Fits.{TreeFits};
ghost use Rattle.hw_module.specs.Reached.{Reached, ReachedFits};
ghost use Rattle.hw_module.specs.Rows.{IsModule, ModuleValue, wire_at};

/// The law of reached nodes: a node that a module reaches is live, and its tree fits with all its forward wires.
pub fn reached_fits()
    ensures { (m : ModuleValue) (pool : PoolValue) → IsPool pool.nodes → DriversFit m pool → (k : ℕ) → Reached m pool.nodes k → ReachedFits m pool.nodes k }
{}

/// The law of forward wires: the value of each in a cycle is its driver's (IEEE 1364-2005, 6.1).
pub fn wire_solves()
    ensures { (m : ModuleValue) (pool : PoolValue) → IsPool pool.nodes → DriversFit m pool → (s : Held) (ins : ℕ → ℕ) (w : ℕ) → w < length m.wires
        → wire_value m pool.nodes s ins w ≡ driven_value (cycle_env m pool.nodes s ins) pool.nodes (wire_at m.wires w).driver }
{}

/// The law of one solution: values of the forward wires that agree with all drivers are those of the cycle.
pub fn wires_are_one()
    ensures { (m : ModuleValue) (pool : PoolValue) → IsPool pool.nodes → DriversFit m pool → (s : Held) (ins wires : ℕ → ℕ)
        → ((w : ℕ) → w < length m.wires → wires w ≡ driven_value (env_of s ins wires) pool.nodes (wire_at m.wires w).driver)
        → (w : ℕ) → w < length m.wires → wires w ≡ wire_value m pool.nodes s ins w }
{}

/// The law of widths in a run: where what a module holds and the inputs are within their widths, a tree that fits the
/// module takes numbers within theirs, each forward wire is within its width, and so is what the module holds as each
/// cycle begins.
pub fn runs_keep_widths()
    ensures within { (m : ModuleValue) (s : Held) (ins : ℕ → ℕ) → IsHeld m s → AreInputs ins → (wires : ℕ → ℕ) → WiresWithin m wires
        → (level : ℕ) (t : Tree) → TreeFits m level t → Within (env_of s ins wires) t }
    ensures wires_within { (m : ModuleValue) (s : Held) (ins : ℕ → ℕ) → IsHeld m s → AreInputs ins → (pool : PoolValue) → DriversFit m pool
        → WiresWithin m (wire_value m pool.nodes s ins) }
    ensures held_fits { (m : ModuleValue) (pool : PoolValue) → IsModule m → DriversFit m pool → (s : Held) → IsHeld m s
        → (ins : ℕ → ℕ → ℕ) → ((k : ℕ) → AreInputs (ins k)) → (k : ℕ) → IsHeld m (held_at m pool.nodes s ins k) }
{}
