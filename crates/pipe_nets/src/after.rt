ghost use Rattle.std.specs.Prelude.{◌≡◌, ◌≤◌};
ghost use Rattle.hw_pool.specs.Meaning.{Env};
ghost use Rattle.hw_pool.specs.Scope.{Scope};
ghost use Rattle.hw_gates.specs.Places.{Is, IsIn, Step, value_in};
ghost use Rattle.pipe_nets.specs.After.{event_of, fences_of, flush_after_of, pc_after_of, started_after_of, stopped_after_of, valid_after_of};

use hw_expr::Net;
use hw_gates::{and, mux, not, or};
use hw_pool::Pool;

/// One bit: 1 where there is an event: the item in front ends, or an interrupt is taken.
#[tactic(auto, unfolding(crate::specs::After::event_of))]
pub fn event(pool: &mut Pool, ends: Net, irq: Net) -> Net
    requires spare { 1 ≤ pool.old.spare }
    requires ends { Is pool.old ends 1 5 }
    requires irq { Is pool.old irq 1 5 }
    ensures value_is { (env : Env) → value_in env pool.new result ≡ event_of (value_in env pool.old ends) (value_in env pool.old irq) }
    ensures net { Is pool.new result 1 5 }
    ensures scope { (s : Scope) → IsIn s pool.old ends → IsIn s pool.old irq → IsIn s pool.new result }
    ensures step { Step pool.old pool.new 1 }
{
    or(pool, ends, irq)
}

/// The pc of the next instruction in the next cycle, of 32 bits.
#[tactic(auto, unfolding(crate::specs::After::pc_after_of))]
pub fn pc_after(
    pool: &mut Pool,
    event: Net,
    asked: Net,
    faulty: Net,
    base: Net,
    next_pc: Net,
    apc: Net,
) -> Net
    requires spare { 3 ≤ pool.old.spare }
    requires event { Is pool.old event 1 5 }
    requires asked { Is pool.old asked 1 5 }
    requires faulty { Is pool.old faulty 1 5 }
    requires base { Is pool.old base 32 5 }
    requires next_pc { Is pool.old next_pc 32 5 }
    requires apc { Is pool.old apc 32 5 }
    ensures value_is { (env : Env) → value_in env pool.new result ≡ pc_after_of (value_in env pool.old event) (value_in env pool.old asked) (value_in env pool.old faulty) (value_in env pool.old base) (value_in env pool.old next_pc) (value_in env pool.old apc) }
    ensures net { Is pool.new result 32 5 }
    ensures scope { (s : Scope) → IsIn s pool.old event → IsIn s pool.old asked → IsIn s pool.old faulty → IsIn s pool.old base → IsIn s pool.old next_pc → IsIn s pool.old apc → IsIn s pool.new result }
    ensures step { Step pool.old pool.new 3 }
{
    let away = or(pool, asked, faulty);
    let goes = mux(pool, away, base, next_pc);
    mux(pool, event, goes, apc)
}

/// One bit: 1 where a FENCE.I retires in this cycle.
#[tactic(auto, unfolding(crate::specs::After::fences_of))]
pub fn fences(pool: &mut Pool, retires: Net, fence: Net) -> Net
    requires spare { 1 ≤ pool.old.spare }
    requires retires { Is pool.old retires 1 6 }
    requires fence { Is pool.old fence 1 6 }
    ensures value_is { (env : Env) → value_in env pool.new result ≡ fences_of (value_in env pool.old retires) (value_in env pool.old fence) }
    ensures net { Is pool.new result 1 6 }
    ensures scope { (s : Scope) → IsIn s pool.old retires → IsIn s pool.old fence → IsIn s pool.new result }
    ensures step { Step pool.old pool.new 1 }
{
    and(pool, retires, fence)
}

/// One bit: 1 where what has been fetched must go in the next cycle: after an interrupt, a trap and a FENCE.I.
#[tactic(auto, unfolding(crate::specs::After::flush_after_of))]
pub fn flush_after(pool: &mut Pool, irq: Net, traps: Net, fences: Net) -> Net
    requires spare { 2 ≤ pool.old.spare }
    requires irq { Is pool.old irq 1 6 }
    requires traps { Is pool.old traps 1 6 }
    requires fences { Is pool.old fences 1 6 }
    ensures value_is { (env : Env) → value_in env pool.new result ≡ flush_after_of (value_in env pool.old irq) (value_in env pool.old traps) (value_in env pool.old fences) }
    ensures net { Is pool.new result 1 6 }
    ensures scope { (s : Scope) → IsIn s pool.old irq → IsIn s pool.old traps → IsIn s pool.old fences → IsIn s pool.new result }
    ensures step { Step pool.old pool.new 2 }
{
    let other = or(pool, traps, fences);
    or(pool, irq, other)
}

/// One bit: 1 where the item in front will have begun.
#[tactic(auto, unfolding(crate::specs::After::started_after_of))]
pub fn started_after(pool: &mut Pool, run: Net, ends: Net) -> Net
    requires spare { 2 ≤ pool.old.spare }
    requires run { Is pool.old run 1 5 }
    requires ends { Is pool.old ends 1 5 }
    ensures value_is { (env : Env) → value_in env pool.new result ≡ started_after_of (value_in env pool.old run) (value_in env pool.old ends) }
    ensures net { Is pool.new result 1 5 }
    ensures scope { (s : Scope) → IsIn s pool.old run → IsIn s pool.old ends → IsIn s pool.new result }
    ensures step { Step pool.old pool.new 2 }
{
    let goes_on = not(pool, ends);
    and(pool, run, goes_on)
}

/// One bit: 1 where a core without System takes nothing more.
#[tactic(auto, unfolding(crate::specs::After::stopped_after_of))]
pub fn stopped_after(pool: &mut Pool, stopped: Net, traps: Net) -> Net
    requires spare { 1 ≤ pool.old.spare }
    requires stopped { Is pool.old stopped 1 6 }
    requires traps { Is pool.old traps 1 6 }
    ensures value_is { (env : Env) → value_in env pool.new result ≡ stopped_after_of (value_in env pool.old stopped) (value_in env pool.old traps) }
    ensures net { Is pool.new result 1 6 }
    ensures scope { (s : Scope) → IsIn s pool.old stopped → IsIn s pool.old traps → IsIn s pool.new result }
    ensures step { Step pool.old pool.new 1 }
{
    or(pool, stopped, traps)
}

/// One bit: 1 where there will be an item in front. It goes where it is killed, where an interrupt is taken and where it ends.
#[tactic(auto, unfolding(crate::specs::After::valid_after_of))]
pub fn valid_after(pool: &mut Pool, kill: Net, irq: Net, takes: Net, enters: Net) -> Net
    requires spare { 5 ≤ pool.old.spare }
    requires kill { Is pool.old kill 1 8 }
    requires irq { Is pool.old irq 1 8 }
    requires takes { Is pool.old takes 1 8 }
    requires enters { Is pool.old enters 1 8 }
    ensures value_is { (env : Env) → value_in env pool.new result ≡ valid_after_of (value_in env pool.old kill) (value_in env pool.old irq) (value_in env pool.old takes) (value_in env pool.old enters) }
    ensures net { Is pool.new result 1 8 }
    ensures scope { (s : Scope) → IsIn s pool.old kill → IsIn s pool.old irq → IsIn s pool.old takes → IsIn s pool.old enters → IsIn s pool.new result }
    ensures step { Step pool.old pool.new 5 }
{
    let lost = or(pool, kill, irq);
    let stays = not(pool, lost);
    let busy = not(pool, enters);
    let there = or(pool, takes, busy);
    and(pool, stays, there)
}
