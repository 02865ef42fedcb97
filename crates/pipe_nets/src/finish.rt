ghost use Rattle.std.specs.Prelude.{◌≡◌, ◌≤◌};
ghost use Rattle.hw_pool.specs.Meaning.{Env};
ghost use Rattle.hw_pool.specs.Scope.{Scope};
ghost use Rattle.hw_gates.specs.Places.{Is, IsIn, Step, value_in};
ghost use Rattle.pipe_nets.specs.Finish.{ends_of, enters_of, faulty_of, retires_of, through_of, traps_of, wins_of, writes_of};

use hw_expr::Net;
use hw_gates::{and, not, or};
use hw_pool::Pool;

/// One bit: 1 where the item in front needs no more cycles.
#[tactic(auto, unfolding(crate::specs::Finish::through_of))]
pub fn through(pool: &mut Pool, except: Net, finished: Net) -> Net
    requires spare { 1 ≤ pool.old.spare }
    requires except { Is pool.old except 1 4 }
    requires finished { Is pool.old finished 1 4 }
    ensures value_is { (env : Env) → value_in env pool.new result ≡ through_of (value_in env pool.old except) (value_in env pool.old finished) }
    ensures net { Is pool.new result 1 4 }
    ensures scope { (s : Scope) → IsIn s pool.old except → IsIn s pool.old finished → IsIn s pool.new result }
    ensures step { Step pool.old pool.new 1 }
{
    or(pool, except, finished)
}

/// One bit: 1 where the item in front retires or traps in this cycle.
#[tactic(auto, unfolding(crate::specs::Finish::ends_of))]
pub fn ends(pool: &mut Pool, run: Net, through: Net) -> Net
    requires spare { 1 ≤ pool.old.spare }
    requires run { Is pool.old run 1 4 }
    requires through { Is pool.old through 1 4 }
    ensures value_is { (env : Env) → value_in env pool.new result ≡ ends_of (value_in env pool.old run) (value_in env pool.old through) }
    ensures net { Is pool.new result 1 4 }
    ensures scope { (s : Scope) → IsIn s pool.old run → IsIn s pool.old through → IsIn s pool.new result }
    ensures step { Step pool.old pool.new 1 }
{
    and(pool, run, through)
}

/// One bit: 1 where the item in front traps, if it ends.
#[tactic(auto, unfolding(crate::specs::Finish::faulty_of))]
pub fn faulty(pool: &mut Pool, except: Net, trap: Net) -> Net
    requires spare { 1 ≤ pool.old.spare }
    requires except { Is pool.old except 1 4 }
    requires trap { Is pool.old trap 1 4 }
    ensures value_is { (env : Env) → value_in env pool.new result ≡ faulty_of (value_in env pool.old except) (value_in env pool.old trap) }
    ensures net { Is pool.new result 1 4 }
    ensures scope { (s : Scope) → IsIn s pool.old except → IsIn s pool.old trap → IsIn s pool.new result }
    ensures step { Step pool.old pool.new 1 }
{
    or(pool, except, trap)
}

/// One bit: 1 where the item in front writes its register, if it ends.
#[tactic(auto, unfolding(crate::specs::Finish::wins_of))]
pub fn wins(pool: &mut Pool, writes: Net, trap: Net) -> Net
    requires spare { 2 ≤ pool.old.spare }
    requires writes { Is pool.old writes 1 4 }
    requires trap { Is pool.old trap 1 4 }
    ensures value_is { (env : Env) → value_in env pool.new result ≡ wins_of (value_in env pool.old writes) (value_in env pool.old trap) }
    ensures net { Is pool.new result 1 4 }
    ensures scope { (s : Scope) → IsIn s pool.old writes → IsIn s pool.old trap → IsIn s pool.new result }
    ensures step { Step pool.old pool.new 2 }
{
    let whole = not(pool, trap);
    and(pool, writes, whole)
}

/// One bit: 1 where the item in front traps in this cycle.
#[tactic(auto, unfolding(crate::specs::Finish::traps_of))]
pub fn traps(pool: &mut Pool, ends: Net, faulty: Net) -> Net
    requires spare { 1 ≤ pool.old.spare }
    requires ends { Is pool.old ends 1 5 }
    requires faulty { Is pool.old faulty 1 5 }
    ensures value_is { (env : Env) → value_in env pool.new result ≡ traps_of (value_in env pool.old ends) (value_in env pool.old faulty) }
    ensures net { Is pool.new result 1 5 }
    ensures scope { (s : Scope) → IsIn s pool.old ends → IsIn s pool.old faulty → IsIn s pool.new result }
    ensures step { Step pool.old pool.new 1 }
{
    and(pool, ends, faulty)
}

/// One bit: 1 where the item in front retires in this cycle.
#[tactic(auto, unfolding(crate::specs::Finish::retires_of))]
pub fn retires(pool: &mut Pool, ends: Net, except: Net, trap: Net) -> Net
    requires spare { 4 ≤ pool.old.spare }
    requires ends { Is pool.old ends 1 5 }
    requires except { Is pool.old except 1 5 }
    requires trap { Is pool.old trap 1 5 }
    ensures value_is { (env : Env) → value_in env pool.new result ≡ retires_of (value_in env pool.old ends) (value_in env pool.old except) (value_in env pool.old trap) }
    ensures net { Is pool.new result 1 5 }
    ensures scope { (s : Scope) → IsIn s pool.old ends → IsIn s pool.old except → IsIn s pool.old trap → IsIn s pool.new result }
    ensures step { Step pool.old pool.new 4 }
{
    let known = not(pool, except);
    let whole = not(pool, trap);
    let good = and(pool, known, whole);
    and(pool, ends, good)
}

/// One bit: 1 where the item in front writes its register in this cycle.
#[tactic(auto, unfolding(crate::specs::Finish::writes_of))]
pub fn writes(pool: &mut Pool, ends: Net, wins: Net) -> Net
    requires spare { 1 ≤ pool.old.spare }
    requires ends { Is pool.old ends 1 5 }
    requires wins { Is pool.old wins 1 5 }
    ensures value_is { (env : Env) → value_in env pool.new result ≡ writes_of (value_in env pool.old ends) (value_in env pool.old wins) }
    ensures net { Is pool.new result 1 5 }
    ensures scope { (s : Scope) → IsIn s pool.old ends → IsIn s pool.old wins → IsIn s pool.new result }
    ensures step { Step pool.old pool.new 1 }
{
    and(pool, ends, wins)
}

/// One bit: 1 where the next item may enter the stage that executes.
#[tactic(auto, unfolding(crate::specs::Finish::enters_of))]
pub fn enters(pool: &mut Pool, valid: Net, through: Net) -> Net
    requires spare { 2 ≤ pool.old.spare }
    requires valid { Is pool.old valid 1 4 }
    requires through { Is pool.old through 1 4 }
    ensures value_is { (env : Env) → value_in env pool.new result ≡ enters_of (value_in env pool.old valid) (value_in env pool.old through) }
    ensures net { Is pool.new result 1 4 }
    ensures scope { (s : Scope) → IsIn s pool.old valid → IsIn s pool.old through → IsIn s pool.new result }
    ensures step { Step pool.old pool.new 2 }
{
    let empty = not(pool, valid);
    or(pool, empty, through)
}
