ghost use Rattle.std.specs.Prelude.{◌≡◌, ◌≤◌};
ghost use Rattle.hw_pool.specs.Meaning.{Env};
ghost use Rattle.hw_pool.specs.Scope.{Scope};
ghost use Rattle.hw_gates.specs.Places.{Is, IsIn, Step, value_in};
ghost use Rattle.pipe_nets.specs.Entry.{fresh_except_of, fresh_word_of, fresh_writes_of, is_call_of, takes_of};

use hw_expr::Net;
use hw_gates::{and, eq, lit, mux, not, or};
use hw_pool::Pool;

/// One bit: 1 where a row is ECALL or EBREAK, which no unit executes.
#[tactic(auto, unfolding(crate::specs::Entry::is_call_of))]
fn is_call(pool: &mut Pool, row: Net) -> Net
    requires spare { 5 ≤ pool.old.spare }
    requires row { Is pool.old row 7 1 }
    ensures value_is { (env : Env) → value_in env pool.new result ≡ is_call_of (value_in env pool.old row) }
    ensures net { Is pool.new result 1 1 }
    ensures scope { (s : Scope) → IsIn s pool.old row → IsIn s pool.new result }
    ensures step { Step pool.old pool.new 5 }
{
    let ecall = lit(pool, 7, 38);
    let is_ecall = eq(pool, row, ecall);
    let ebreak = lit(pool, 7, 39);
    let is_ebreak = eq(pool, row, ebreak);
    or(pool, is_ecall, is_ebreak)
}

/// One bit: 1 where no unit executes the item that is offered.
#[tactic(auto, unfolding(crate::specs::Entry::fresh_except_of))]
pub fn fresh_except(pool: &mut Pool, error: Net, legal: Net, row: Net) -> Net
    requires spare { 8 ≤ pool.old.spare }
    requires error { Is pool.old error 1 1 }
    requires legal { Is pool.old legal 1 1 }
    requires row { Is pool.old row 7 1 }
    ensures value_is { (env : Env) → value_in env pool.new result ≡ fresh_except_of (value_in env pool.old error) (value_in env pool.old legal) (value_in env pool.old row) }
    ensures net { Is pool.new result 1 1 }
    ensures scope { (s : Scope) → IsIn s pool.old error → IsIn s pool.old legal → IsIn s pool.old row → IsIn s pool.new result }
    ensures step { Step pool.old pool.new 8 }
{
    let call = is_call(pool, row);
    let illegal = not(pool, legal);
    let other = or(pool, illegal, call);
    or(pool, error, other)
}

/// One bit: 1 where the item that is offered writes its register, if it retires.
#[tactic(auto, unfolding(crate::specs::Entry::fresh_writes_of))]
pub fn fresh_writes(pool: &mut Pool, writes: Net, legal: Net, error: Net) -> Net
    requires spare { 3 ≤ pool.old.spare }
    requires writes { Is pool.old writes 1 1 }
    requires legal { Is pool.old legal 1 1 }
    requires error { Is pool.old error 1 1 }
    ensures value_is { (env : Env) → value_in env pool.new result ≡ fresh_writes_of (value_in env pool.old writes) (value_in env pool.old legal) (value_in env pool.old error) }
    ensures net { Is pool.new result 1 1 }
    ensures scope { (s : Scope) → IsIn s pool.old writes → IsIn s pool.old legal → IsIn s pool.old error → IsIn s pool.new result }
    ensures step { Step pool.old pool.new 3 }
{
    let read = not(pool, error);
    let known = and(pool, legal, read);
    and(pool, writes, known)
}

/// The word of the item that is offered, of 32 bits; 0 where it could not be read.
#[tactic(auto, unfolding(crate::specs::Entry::fresh_word_of))]
pub fn fresh_word(pool: &mut Pool, error: Net, word: Net) -> Net
    requires spare { 2 ≤ pool.old.spare }
    requires error { Is pool.old error 1 0 }
    requires word { Is pool.old word 32 0 }
    ensures value_is { (env : Env) → value_in env pool.new result ≡ fresh_word_of (value_in env pool.old error) (value_in env pool.old word) }
    ensures net { Is pool.new result 32 0 }
    ensures scope { (s : Scope) → IsIn s pool.old error → IsIn s pool.old word → IsIn s pool.new result }
    ensures step { Step pool.old pool.new 2 }
{
    let zero = lit(pool, 32, 0);
    mux(pool, error, zero, word)
}

/// One bit: 1 where the item that is offered is taken.
#[tactic(auto, unfolding(crate::specs::Entry::takes_of))]
pub fn takes(pool: &mut Pool, offered: Net, enters: Net, hold: Net, kill: Net, stopped: Net) -> Net
    requires spare { 7 ≤ pool.old.spare }
    requires offered { Is pool.old offered 1 7 }
    requires enters { Is pool.old enters 1 7 }
    requires hold { Is pool.old hold 1 7 }
    requires kill { Is pool.old kill 1 7 }
    requires stopped { Is pool.old stopped 1 7 }
    ensures value_is { (env : Env) → value_in env pool.new result ≡ takes_of (value_in env pool.old offered) (value_in env pool.old enters) (value_in env pool.old hold) (value_in env pool.old kill) (value_in env pool.old stopped) }
    ensures net { Is pool.new result 1 7 }
    ensures scope { (s : Scope) → IsIn s pool.old offered → IsIn s pool.old enters → IsIn s pool.old hold → IsIn s pool.old kill → IsIn s pool.old stopped → IsIn s pool.new result }
    ensures step { Step pool.old pool.new 7 }
{
    let ready = and(pool, offered, enters);
    let whole = not(pool, hold);
    let on_path = not(pool, kill);
    let goes_on = not(pool, stopped);
    let open = and(pool, on_path, goes_on);
    let free = and(pool, whole, open);
    and(pool, ready, free)
}
