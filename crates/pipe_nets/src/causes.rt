ghost use Rattle.std.specs.Prelude.{◌≡◌, ◌≤◌};
ghost use Rattle.hw_pool.specs.Meaning.{Env};
ghost use Rattle.hw_pool.specs.Scope.{Scope};
ghost use Rattle.hw_gates.specs.Places.{Is, IsIn, Step, value_in};
ghost use Rattle.pipe_nets.specs.Causes.{except_cause_of, except_value_of, of_trap};

use hw_expr::Net;
use hw_gates::{lit, mux, slice};
use hw_pool::Pool;

/// The cause of a trap that the pipeline makes itself, of 32 bits: access fault of the fetch (1), illegal instruction (2), EBREAK (3),
/// ECALL (11) (RISC-V Privileged 20190608, 3.1.15).
#[tactic(auto, unfolding(crate::specs::Causes::except_cause_of))]
pub fn except_cause(pool: &mut Pool, error: Net, legal: Net, word: Net) -> Net
    requires spare { 8 ≤ pool.old.spare }
    requires error { Is pool.old error 1 0 }
    requires legal { Is pool.old legal 1 0 }
    requires word { Is pool.old word 32 0 }
    ensures value_is { (env : Env) → value_in env pool.new result ≡ except_cause_of (value_in env pool.old error) (value_in env pool.old legal) (value_in env pool.old word) }
    ensures net { Is pool.new result 32 0 }
    ensures scope { (s : Scope) → IsIn s pool.old error → IsIn s pool.old legal → IsIn s pool.old word → IsIn s pool.new result }
    ensures step { Step pool.old pool.new 8 }
{
    let is_break = slice(pool, word, 20, 20);
    let breakpoint = lit(pool, 32, 3);
    let call = lit(pool, 32, 11);
    let known = mux(pool, is_break, breakpoint, call);
    let illegal = lit(pool, 32, 2);
    let read = mux(pool, legal, known, illegal);
    let fault = lit(pool, 32, 1);
    mux(pool, error, fault, read)
}

/// What mtval takes in such a trap, of 32 bits: the pc of the access fault, or the illegal word (3.1.16).
#[tactic(auto, unfolding(crate::specs::Causes::except_value_of))]
pub fn except_value(pool: &mut Pool, error: Net, legal: Net, pc: Net, word: Net) -> Net
    requires spare { 3 ≤ pool.old.spare }
    requires error { Is pool.old error 1 0 }
    requires legal { Is pool.old legal 1 0 }
    requires pc { Is pool.old pc 32 0 }
    requires word { Is pool.old word 32 0 }
    ensures value_is { (env : Env) → value_in env pool.new result ≡ except_value_of (value_in env pool.old error) (value_in env pool.old legal) (value_in env pool.old pc) (value_in env pool.old word) }
    ensures net { Is pool.new result 32 0 }
    ensures scope { (s : Scope) → IsIn s pool.old error → IsIn s pool.old legal → IsIn s pool.old pc → IsIn s pool.old word → IsIn s pool.new result }
    ensures step { Step pool.old pool.new 3 }
{
    let zero = lit(pool, 32, 0);
    let read = mux(pool, legal, zero, word);
    mux(pool, error, pc, read)
}

/// Cause or mtval of a trap of the item in front, of 32 bits: the pipeline's own, or the unit's.
#[tactic(auto, unfolding(crate::specs::Causes::of_trap))]
pub fn of_trap(pool: &mut Pool, except: Net, own: Net, unit: Net) -> Net
    requires spare { 1 ≤ pool.old.spare }
    requires except { Is pool.old except 1 4 }
    requires own { Is pool.old own 32 4 }
    requires unit { Is pool.old unit 32 4 }
    ensures value_is { (env : Env) → value_in env pool.new result ≡ of_trap (value_in env pool.old except) (value_in env pool.old own) (value_in env pool.old unit) }
    ensures net { Is pool.new result 32 4 }
    ensures scope { (s : Scope) → IsIn s pool.old except → IsIn s pool.old own → IsIn s pool.old unit → IsIn s pool.new result }
    ensures step { Step pool.old pool.new 1 }
{
    mux(pool, except, own, unit)
}
