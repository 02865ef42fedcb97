ghost use Rattle.std.specs.Prelude.{◌≡◌, ℕ, ◌≤◌};
ghost use Rattle.hw_pool.specs.Meaning.{Env};
ghost use Rattle.hw_pool.specs.Scope.{Scope};
ghost use Rattle.hw_gates.specs.Places.{Is, IsIn, Step, value_in};
ghost use Rattle.csr_nets.specs.Machine.{any_by, irq_cause_by, take_by, whole_by};
ghost use Rattle.csr_nets.specs.Nets.{AreLines, AreLinesIn, IsHeld, IsHeldIn, IsInterrupt, IsInterruptIn, held_in, lines_in};

use crate::unit::{Held, Lines};
use hw_expr::Net;
use hw_gates::{and, cat, lit, mux, or};
use hw_pool::Pool;

/// Whether an enabled interrupt is pending, whether one is to be taken, its cause of 32 bits, and the address of the handler of 32.
#[derive(Clone, Copy, Debug)]
pub struct Interrupt {
    pub any: Net,
    pub take: Net,
    pub cause: Net,
    pub base: Net,
}

/// One bit: an enabled interrupt is pending.
#[tactic(auto, unfolding(crate::specs::Machine::any_by), using(hw_gates::proofs::Plain::plain))]
fn any(pool: &mut Pool, r: Held, l: Lines) -> Net
    requires spare { 5 ≤ pool.old.spare }
    requires r { IsHeld pool.old r }
    requires l { AreLines pool.old l }
    ensures value { (env : Env) → value_in env pool.new result ≡ any_by (held_in env pool.old r) (lines_in env pool.old l) }
    ensures net { Is pool.new result 1 0 }
    ensures scope { (s : Scope) → IsHeldIn s pool.old r → AreLinesIn s pool.old l → IsIn s pool.new result }
    ensures step { Step pool.old pool.new 5 }
{
    let soft = and(pool, r.soft, l.soft);
    let timer = and(pool, r.timer, l.timer);
    let outer = and(pool, r.outer, l.outer);
    let later = or(pool, timer, outer);
    or(pool, soft, later)
}

/// The cause of the interrupt that comes first: external, then software, then timer (RISC-V Privileged 20190608, 3.1.9).
#[tactic(auto, unfolding(crate::specs::Machine::irq_cause_by), using(hw_gates::proofs::Plain::plain))]
fn irq_cause(pool: &mut Pool, r: Held, l: Lines) -> Net
    requires spare { 7 ≤ pool.old.spare }
    requires r { IsHeld pool.old r }
    requires l { AreLines pool.old l }
    ensures value { (env : Env) → value_in env pool.new result ≡ irq_cause_by (held_in env pool.old r) (lines_in env pool.old l) }
    ensures net { Is pool.new result 32 0 }
    ensures scope { (s : Scope) → IsHeldIn s pool.old r → AreLinesIn s pool.old l → IsIn s pool.new result }
    ensures step { Step pool.old pool.new 7 }
{
    let outer = and(pool, r.outer, l.outer);
    let soft = and(pool, r.soft, l.soft);
    let of_outer = lit(pool, 32, 0x8000000b);
    let of_soft = lit(pool, 32, 0x80000003);
    let of_timer = lit(pool, 32, 0x80000007);
    let later = mux(pool, soft, of_soft, of_timer);
    mux(pool, outer, of_outer, later)
}

/// The address of the handler, of 32 bits.
#[tactic(auto, unfolding(crate::specs::Machine::whole_by))]
fn handler(pool: &mut Pool, above: Net) -> Net
    requires spare { 2 ≤ pool.old.spare }
    requires above { Is pool.old above 30 0 }
    ensures value { (env : Env) → value_in env pool.new result ≡ whole_by (value_in env pool.old above) }
    ensures net { Is pool.new result 32 0 }
    ensures scope { (s : Scope) → IsIn s pool.old above → IsIn s pool.new result }
    ensures step { Step pool.old pool.new 2 }
{
    let zeros = lit(pool, 2, 0);
    cat(pool, above, zeros)
}

/// The interrupt to take, and the address of the handler.
#[tactic(auto, unfolding(crate::specs::Machine::take_by), using(hw_gates::proofs::Plain::plain))]
pub(crate) fn interrupt_nets(pool: &mut Pool, r: Held, l: Lines) -> Interrupt
    requires spare { 15 ≤ pool.old.spare }
    requires r { IsHeld pool.old r }
    requires l { AreLines pool.old l }
    ensures any { (env : Env) → value_in env pool.new result.any ≡ any_by (held_in env pool.old r) (lines_in env pool.old l) }
    ensures take { (env : Env) → value_in env pool.new result.take ≡ take_by (held_in env pool.old r) (any_by (held_in env pool.old r) (lines_in env pool.old l)) }
    ensures cause { (env : Env) → value_in env pool.new result.cause ≡ irq_cause_by (held_in env pool.old r) (lines_in env pool.old l) }
    ensures base { (env : Env) → value_in env pool.new result.base ≡ whole_by (value_in env pool.old r.tvec) }
    ensures nets { IsInterrupt pool.new result }
    ensures scope { (s : Scope) → IsHeldIn s pool.old r → AreLinesIn s pool.old l → IsInterruptIn s pool.new result }
    ensures step { Step pool.old pool.new 15 }
{
    let any = any(pool, r, l);
    let take = and(pool, r.on, any);
    let cause = irq_cause(pool, r, l);
    let base = handler(pool, r.tvec);
    Interrupt {
        any,
        take,
        cause,
        base,
    }
}
