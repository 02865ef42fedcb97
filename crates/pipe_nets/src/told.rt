ghost use Rattle.std.specs.Prelude.{◌≡◌, ◌≤◌};
ghost use Rattle.hw_pool.specs.Meaning.{Env};
ghost use Rattle.hw_pool.specs.Scope.{Scope};
ghost use Rattle.hw_gates.specs.Places.{Is, IsIn, Step, value_in};
ghost use Rattle.pipe_nets.specs.Told.{kind_alone_of, kind_of, sys_cause_of, sys_value_of, tells_of, told_cause_of, told_rd_of, told_value_of, told_word_of};

use hw_expr::Net;
use hw_gates::{and, cat, lit, mux, not, slice};
use hw_pool::Pool;

/// The kind of an event, of 2 bits: an interrupt (2), a trap (1), a retirement (0).
#[tactic(auto, unfolding(crate::specs::Told::kind_of))]
pub fn kind(pool: &mut Pool, asked: Net, faulty: Net) -> Net
    requires spare { 3 ≤ pool.old.spare }
    requires asked { Is pool.old asked 1 4 }
    requires faulty { Is pool.old faulty 1 4 }
    ensures value_is { (env : Env) → value_in env pool.new result ≡ kind_of (value_in env pool.old asked) (value_in env pool.old faulty) }
    ensures net { Is pool.new result 2 4 }
    ensures scope { (s : Scope) → IsIn s pool.old asked → IsIn s pool.old faulty → IsIn s pool.new result }
    ensures step { Step pool.old pool.new 3 }
{
    let apart = not(pool, asked);
    let trap = and(pool, faulty, apart);
    cat(pool, asked, trap)
}

/// The kind of an event in a core without System, of 2 bits: a trap that stops the core (3), a retirement (0).
#[tactic(auto, unfolding(crate::specs::Told::kind_alone_of))]
pub fn kind_alone(pool: &mut Pool, asked: Net, faulty: Net) -> Net
    requires spare { 3 ≤ pool.old.spare }
    requires asked { Is pool.old asked 1 4 }
    requires faulty { Is pool.old faulty 1 4 }
    ensures value_is { (env : Env) → value_in env pool.new result ≡ kind_alone_of (value_in env pool.old asked) (value_in env pool.old faulty) }
    ensures net { Is pool.new result 2 4 }
    ensures scope { (s : Scope) → IsIn s pool.old asked → IsIn s pool.old faulty → IsIn s pool.new result }
    ensures step { Step pool.old pool.new 3 }
{
    let apart = not(pool, asked);
    let trap = and(pool, faulty, apart);
    cat(pool, trap, trap)
}

/// The word of an event, of 32 bits; 0 in an interrupt.
#[tactic(auto, unfolding(crate::specs::Told::told_word_of))]
pub fn told_word(pool: &mut Pool, asked: Net, word: Net) -> Net
    requires spare { 2 ≤ pool.old.spare }
    requires asked { Is pool.old asked 1 0 }
    requires word { Is pool.old word 32 0 }
    ensures value_is { (env : Env) → value_in env pool.new result ≡ told_word_of (value_in env pool.old asked) (value_in env pool.old word) }
    ensures net { Is pool.new result 32 0 }
    ensures scope { (s : Scope) → IsIn s pool.old asked → IsIn s pool.old word → IsIn s pool.new result }
    ensures step { Step pool.old pool.new 2 }
{
    let zero = lit(pool, 32, 0);
    mux(pool, asked, zero, word)
}

/// One bit: 1 where an event tells of a register that is written.
#[tactic(auto, unfolding(crate::specs::Told::tells_of))]
pub fn tells(pool: &mut Pool, wins: Net, asked: Net) -> Net
    requires spare { 2 ≤ pool.old.spare }
    requires wins { Is pool.old wins 1 4 }
    requires asked { Is pool.old asked 1 4 }
    ensures value_is { (env : Env) → value_in env pool.new result ≡ tells_of (value_in env pool.old wins) (value_in env pool.old asked) }
    ensures net { Is pool.new result 1 4 }
    ensures scope { (s : Scope) → IsIn s pool.old wins → IsIn s pool.old asked → IsIn s pool.new result }
    ensures step { Step pool.old pool.new 2 }
{
    let apart = not(pool, asked);
    and(pool, wins, apart)
}

/// The register of an event, of 5 bits; 0 where none is written.
#[tactic(auto, unfolding(crate::specs::Told::told_rd_of))]
pub fn told_rd(pool: &mut Pool, tells: Net, word: Net) -> Net
    requires spare { 3 ≤ pool.old.spare }
    requires tells { Is pool.old tells 1 4 }
    requires word { Is pool.old word 32 4 }
    ensures value_is { (env : Env) → value_in env pool.new result ≡ told_rd_of (value_in env pool.old tells) (value_in env pool.old word) }
    ensures net { Is pool.new result 5 4 }
    ensures scope { (s : Scope) → IsIn s pool.old tells → IsIn s pool.old word → IsIn s pool.new result }
    ensures step { Step pool.old pool.new 3 }
{
    let rd = slice(pool, word, 11, 7);
    let zero = lit(pool, 5, 0);
    mux(pool, tells, rd, zero)
}

/// The value of an event, of 32 bits; 0 where no register is written.
#[tactic(auto, unfolding(crate::specs::Told::told_value_of))]
pub fn told_value(pool: &mut Pool, tells: Net, value: Net) -> Net
    requires spare { 2 ≤ pool.old.spare }
    requires tells { Is pool.old tells 1 4 }
    requires value { Is pool.old value 32 4 }
    ensures value_is { (env : Env) → value_in env pool.new result ≡ told_value_of (value_in env pool.old tells) (value_in env pool.old value) }
    ensures net { Is pool.new result 32 4 }
    ensures scope { (s : Scope) → IsIn s pool.old tells → IsIn s pool.old value → IsIn s pool.new result }
    ensures step { Step pool.old pool.new 2 }
{
    let zero = lit(pool, 32, 0);
    mux(pool, tells, value, zero)
}

/// The cause of an event, of 32 bits; 0 in a retirement.
#[tactic(auto, unfolding(crate::specs::Told::told_cause_of))]
pub fn told_cause(pool: &mut Pool, asked: Net, irq_cause: Net, faulty: Net, cause: Net) -> Net
    requires spare { 3 ≤ pool.old.spare }
    requires asked { Is pool.old asked 1 4 }
    requires irq_cause { Is pool.old irq_cause 32 4 }
    requires faulty { Is pool.old faulty 1 4 }
    requires cause { Is pool.old cause 32 4 }
    ensures value_is { (env : Env) → value_in env pool.new result ≡ told_cause_of (value_in env pool.old asked) (value_in env pool.old irq_cause) (value_in env pool.old faulty) (value_in env pool.old cause) }
    ensures net { Is pool.new result 32 4 }
    ensures scope { (s : Scope) → IsIn s pool.old asked → IsIn s pool.old irq_cause → IsIn s pool.old faulty → IsIn s pool.old cause → IsIn s pool.new result }
    ensures step { Step pool.old pool.new 3 }
{
    let zero = lit(pool, 32, 0);
    let own = mux(pool, faulty, cause, zero);
    mux(pool, asked, irq_cause, own)
}

/// The cause that System takes, of 32 bits.
#[tactic(auto, unfolding(crate::specs::Told::sys_cause_of))]
pub fn sys_cause(pool: &mut Pool, asked: Net, irq_cause: Net, cause: Net) -> Net
    requires spare { 1 ≤ pool.old.spare }
    requires asked { Is pool.old asked 1 4 }
    requires irq_cause { Is pool.old irq_cause 32 4 }
    requires cause { Is pool.old cause 32 4 }
    ensures value_is { (env : Env) → value_in env pool.new result ≡ sys_cause_of (value_in env pool.old asked) (value_in env pool.old irq_cause) (value_in env pool.old cause) }
    ensures net { Is pool.new result 32 4 }
    ensures scope { (s : Scope) → IsIn s pool.old asked → IsIn s pool.old irq_cause → IsIn s pool.old cause → IsIn s pool.new result }
    ensures step { Step pool.old pool.new 1 }
{
    mux(pool, asked, irq_cause, cause)
}

/// What System takes for mtval, of 32 bits; 0 in an interrupt.
#[tactic(auto, unfolding(crate::specs::Told::sys_value_of))]
pub fn sys_value(pool: &mut Pool, asked: Net, value: Net) -> Net
    requires spare { 2 ≤ pool.old.spare }
    requires asked { Is pool.old asked 1 4 }
    requires value { Is pool.old value 32 4 }
    ensures value_is { (env : Env) → value_in env pool.new result ≡ sys_value_of (value_in env pool.old asked) (value_in env pool.old value) }
    ensures net { Is pool.new result 32 4 }
    ensures scope { (s : Scope) → IsIn s pool.old asked → IsIn s pool.old value → IsIn s pool.new result }
    ensures step { Step pool.old pool.new 2 }
{
    let zero = lit(pool, 32, 0);
    mux(pool, asked, zero, value)
}
