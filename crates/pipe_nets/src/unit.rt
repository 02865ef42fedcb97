ghost use Rattle.std.specs.Prelude.{◌≡◌, ◌≤◌};
ghost use Rattle.hw_pool.specs.Meaning.{Env};
ghost use Rattle.hw_pool.specs.Scope.{Scope};
ghost use Rattle.hw_gates.specs.Places.{Is, IsIn, Step, value_in};
ghost use Rattle.pipe_nets.specs.Unit.{clear_of, go_of};

use hw_expr::Net;
use hw_gates::{and, or};
use hw_pool::Pool;

/// One bit: 1 where the chosen unit is given the item in front.
#[tactic(auto, unfolding(crate::specs::Unit::go_of))]
pub fn goes(pool: &mut Pool, works: Net, chosen: Net) -> Net
    requires spare { 1 ≤ pool.old.spare }
    requires works { Is pool.old works 1 3 }
    requires chosen { Is pool.old chosen 1 3 }
    ensures value_is { (env : Env) → value_in env pool.new result ≡ go_of (value_in env pool.old works) (value_in env pool.old chosen) }
    ensures net { Is pool.new result 1 3 }
    ensures scope { (s : Scope) → IsIn s pool.old works → IsIn s pool.old chosen → IsIn s pool.new result }
    ensures step { Step pool.old pool.new 1 }
{
    and(pool, works, chosen)
}

/// One bit: 1 where a unit that works ahead gives up.
#[tactic(auto, unfolding(crate::specs::Unit::clear_of))]
pub fn clears(pool: &mut Pool, kill: Net, irq: Net) -> Net
    requires spare { 1 ≤ pool.old.spare }
    requires kill { Is pool.old kill 1 2 }
    requires irq { Is pool.old irq 1 2 }
    ensures value_is { (env : Env) → value_in env pool.new result ≡ clear_of (value_in env pool.old kill) (value_in env pool.old irq) }
    ensures net { Is pool.new result 1 2 }
    ensures scope { (s : Scope) → IsIn s pool.old kill → IsIn s pool.old irq → IsIn s pool.new result }
    ensures step { Step pool.old pool.new 1 }
{
    or(pool, kill, irq)
}
