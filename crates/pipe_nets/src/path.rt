ghost use Rattle.std.specs.Prelude.{◌≡◌, ◌≤◌};
ghost use Rattle.hw_pool.specs.Meaning.{Env};
ghost use Rattle.hw_pool.specs.Scope.{Scope};
ghost use Rattle.hw_gates.specs.Places.{Is, IsIn, Step, value_in};
ghost use Rattle.pipe_nets.specs.Path.{asked_of, irq_of, kill_of, run_of, wrong_of};

use hw_expr::Net;
use hw_gates::{and, eq, mux, not, or};
use hw_pool::Pool;

/// One bit: 1 where a pc of 32 bits is not that of the next instruction.
#[tactic(auto, unfolding(crate::specs::Path::wrong_of))]
fn wrong(pool: &mut Pool, pc: Net, apc: Net) -> Net
    requires spare { 2 ≤ pool.old.spare }
    requires pc { Is pool.old pc 32 0 }
    requires apc { Is pool.old apc 32 0 }
    ensures value_is { (env : Env) → value_in env pool.new result ≡ wrong_of (value_in env pool.old pc) (value_in env pool.old apc) }
    ensures net { Is pool.new result 1 0 }
    ensures scope { (s : Scope) → IsIn s pool.old pc → IsIn s pool.old apc → IsIn s pool.new result }
    ensures step { Step pool.old pool.new 2 }
{
    let same = eq(pool, pc, apc);
    not(pool, same)
}

/// One bit: 1 where what has been fetched must go: after a flush, or where the item in front, or else the one that is offered, is not
/// on the path of the program.
#[tactic(auto, unfolding(crate::specs::Path::kill_of))]
pub fn kill(
    pool: &mut Pool,
    flush: Net,
    valid: Net,
    pc: Net,
    offered: Net,
    offered_pc: Net,
    apc: Net,
) -> Net
    requires spare { 7 ≤ pool.old.spare }
    requires flush { Is pool.old flush 1 0 }
    requires valid { Is pool.old valid 1 0 }
    requires pc { Is pool.old pc 32 0 }
    requires offered { Is pool.old offered 1 0 }
    requires offered_pc { Is pool.old offered_pc 32 0 }
    requires apc { Is pool.old apc 32 0 }
    ensures value_is { (env : Env) → value_in env pool.new result ≡ kill_of (value_in env pool.old flush) (value_in env pool.old valid) (value_in env pool.old pc) (value_in env pool.old offered) (value_in env pool.old offered_pc) (value_in env pool.old apc) }
    ensures net { Is pool.new result 1 0 }
    ensures scope { (s : Scope) → IsIn s pool.old flush → IsIn s pool.old valid → IsIn s pool.old pc → IsIn s pool.old offered → IsIn s pool.old offered_pc → IsIn s pool.old apc → IsIn s pool.new result }
    ensures step { Step pool.old pool.new 7 }
{
    let wrong_item = wrong(pool, pc, apc);
    let wrong_offer = wrong(pool, offered_pc, apc);
    let early = and(pool, offered, wrong_offer);
    let off_path = mux(pool, valid, wrong_item, early);
    or(pool, flush, off_path)
}

/// One bit: 1 where an interrupt is to be taken, and the item in front has not begun.
#[tactic(auto, unfolding(crate::specs::Path::asked_of))]
pub fn asks(pool: &mut Pool, take_irq: Net, started: Net) -> Net
    requires spare { 2 ≤ pool.old.spare }
    requires take_irq { Is pool.old take_irq 1 0 }
    requires started { Is pool.old started 1 0 }
    ensures value_is { (env : Env) → value_in env pool.new result ≡ asked_of (value_in env pool.old take_irq) (value_in env pool.old started) }
    ensures net { Is pool.new result 1 0 }
    ensures scope { (s : Scope) → IsIn s pool.old take_irq → IsIn s pool.old started → IsIn s pool.new result }
    ensures step { Step pool.old pool.new 2 }
{
    let free = not(pool, started);
    and(pool, take_irq, free)
}

/// One bit: 1 where an interrupt is taken: between two instructions.
#[tactic(auto, unfolding(crate::specs::Path::irq_of))]
pub fn interrupt(pool: &mut Pool, asked: Net, kill: Net) -> Net
    requires spare { 2 ≤ pool.old.spare }
    requires asked { Is pool.old asked 1 0 }
    requires kill { Is pool.old kill 1 1 }
    ensures value_is { (env : Env) → value_in env pool.new result ≡ irq_of (value_in env pool.old asked) (value_in env pool.old kill) }
    ensures net { Is pool.new result 1 1 }
    ensures scope { (s : Scope) → IsIn s pool.old asked → IsIn s pool.old kill → IsIn s pool.new result }
    ensures step { Step pool.old pool.new 2 }
{
    let stays = not(pool, kill);
    and(pool, asked, stays)
}

/// One bit: 1 where the item in front executes: it has begun, or nothing keeps it from it.
#[tactic(auto, unfolding(crate::specs::Path::run_of))]
pub fn runs(
    pool: &mut Pool,
    valid: Net,
    started: Net,
    flush: Net,
    pc: Net,
    apc: Net,
    take_irq: Net,
) -> Net
    requires spare { 7 ≤ pool.old.spare }
    requires valid { Is pool.old valid 1 0 }
    requires started { Is pool.old started 1 0 }
    requires flush { Is pool.old flush 1 0 }
    requires pc { Is pool.old pc 32 0 }
    requires apc { Is pool.old apc 32 0 }
    requires take_irq { Is pool.old take_irq 1 0 }
    ensures value_is { (env : Env) → value_in env pool.new result ≡ run_of (value_in env pool.old valid) (value_in env pool.old started) (value_in env pool.old flush) (value_in env pool.old pc) (value_in env pool.old apc) (value_in env pool.old take_irq) }
    ensures net { Is pool.new result 1 0 }
    ensures scope { (s : Scope) → IsIn s pool.old valid → IsIn s pool.old started → IsIn s pool.old flush → IsIn s pool.old pc → IsIn s pool.old apc → IsIn s pool.old take_irq → IsIn s pool.new result }
    ensures step { Step pool.old pool.new 7 }
{
    let off_path = wrong(pool, pc, apc);
    let other = or(pool, off_path, take_irq);
    let any = or(pool, flush, other);
    let none = not(pool, any);
    let may = or(pool, started, none);
    and(pool, valid, may)
}
