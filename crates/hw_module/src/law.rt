ghost use Rattle.std.specs.Prelude.{ℕ, ◌+◌, ◌≤◌};
ghost use Rattle.hw_pool.specs.Nodes.{PoolValue};
ghost use Rattle.hw_pool.specs.Frame.{Adds};
ghost use Rattle.hw_expr.specs.declared.net.Net.{Net};
ghost use Rattle.hw_expr.specs.Nets.{InScope};
ghost use Rattle.hw_module.specs.declared.rows.Owner.{Owner};
ghost use Rattle.hw_module.specs.Rows.{ModuleValue};
ghost use Rattle.hw_module.specs.Checked.{DriversFit};
ghost use Rattle.hw_module.specs.Fits.{FitsIn};
ghost use Rattle.hw_module.specs.Frame.{Grows};
ghost use Rattle.hw_module.specs.Rights.{Makes, Rights};
ghost use Rattle.hw_module.specs.Scope.{scope_of};

/// Drivers that fit still do when nodes are added to the pool. This does nothing: its contract is the law.
pub fn drivers_keep()
    ensures { (m : ModuleValue) (old new : PoolValue) (n : ℕ) → Adds old new n → DriversFit m old → DriversFit m new }
{}

/// The law of scopes: the nets that fit a module are those in its scope, and they stay so while it grows. This does
/// nothing: its contract is the law.
pub fn scopes_fit()
    ensures scope { (m : ModuleValue) (pool : PoolValue) (net : Net) → FitsIn m pool net → InScope (scope_of m) pool net }
    ensures fits { (m : ModuleValue) (pool : PoolValue) (net : Net) → InScope (scope_of m) pool net → FitsIn m pool net }
    ensures grown { (old new : ModuleValue) (n : ℕ) (pool : PoolValue) (net : Net) → Grows old new n → InScope (scope_of old) pool net
        → InScope (scope_of new) pool net }
{}

/// The law of rights: a module that stays as it is lies within each owner's rights, and so do two steps of one owner,
/// one behind the other. This does nothing: its contract is the law.
pub fn makes_chain()
    ensures makes_nothing { (by : Owner) (r : Rights) (m : ModuleValue) → Makes by r m m 0 }
    ensures makes_then { (by : Owner) (r : Rights) (a b c : ModuleValue) (m n total : ℕ) → Makes by r a b m → Makes by r b c n → m + n ≤ total
        → Makes by r a c total }
{}
