ghost use Rattle.hw_module.specs.Rows.{ModuleValue};
ghost use Rattle.hw_module.specs.Cycle.{IsHeld};
ghost use Rattle.hw_cycle.specs.State.{CycleValue, IsCycle, IsFor, held_of};

/// The law of held numbers: what a cycle holds is what a module of its shape may hold.
pub fn holds()
    ensures { (c : CycleValue) (m : ModuleValue) → IsCycle c → IsFor c m → IsHeld m (held_of c) }
{}
