ghost use Rattle.std.specs.Prelude.{◌≡◌, ℕ, ◌≤◌};
ghost use Rattle.hw_pool.specs.Meaning.{Env};
ghost use Rattle.hw_pool.specs.Scope.{Scope};
ghost use Rattle.hw_gates.specs.Places.{Is, IsIn, Step, value_in};
ghost use Rattle.csr_nets.specs.Machine.{access_of, changed_by, operand_by, return_of, wait_of, write_of};
ghost use Rattle.csr_nets.specs.Nets.{IsKind, IsKindIn};

use hw_expr::Net;
use hw_gates::{and, cat, eq, lit, mux, not, or, slice};
use hw_pool::Pool;

/// What a word is, one bit each: a CSR access, an MRET, a WFI, and whether an access writes.
#[derive(Clone, Copy, Debug)]
pub struct Kind {
    pub access: Net,
    pub returns: Net,
    pub waits: Net,
    pub writes: Net,
}

/// One bit: the word is a CSR access.
#[tactic(auto, unfolding(crate::specs::Machine::access_of))]
fn access(pool: &mut Pool, word: Net) -> Net
    requires spare { 3 ≤ pool.old.spare }
    requires word { Is pool.old word 32 4 }
    ensures value { (env : Env) → value_in env pool.new result ≡ access_of (value_in env pool.old word) }
    ensures net { Is pool.new result 1 4 }
    ensures scope { (s : Scope) → IsIn s pool.old word → IsIn s pool.new result }
    ensures step { Step pool.old pool.new 3 }
{
    let low = slice(pool, word, 12, 12);
    let high = slice(pool, word, 13, 13);
    or(pool, low, high)
}

/// One bit: it is an MRET.
#[tactic(auto, unfolding(crate::specs::Machine::return_of))]
fn returned(pool: &mut Pool, word: Net, access: Net) -> Net
    requires spare { 3 ≤ pool.old.spare }
    requires word { Is pool.old word 32 4 }
    requires access { Is pool.old access 1 4 }
    ensures value { (env : Env) → value_in env pool.new result ≡ return_of (value_in env pool.old word) (value_in env pool.old access) }
    ensures net { Is pool.new result 1 4 }
    ensures scope { (s : Scope) → IsIn s pool.old word → IsIn s pool.old access → IsIn s pool.new result }
    ensures step { Step pool.old pool.new 3 }
{
    let other = not(pool, access);
    let bit = slice(pool, word, 29, 29);
    and(pool, other, bit)
}

/// One bit: it is a WFI.
#[tactic(auto, unfolding(crate::specs::Machine::wait_of))]
fn waiting(pool: &mut Pool, word: Net, access: Net) -> Net
    requires spare { 4 ≤ pool.old.spare }
    requires word { Is pool.old word 32 4 }
    requires access { Is pool.old access 1 4 }
    ensures value { (env : Env) → value_in env pool.new result ≡ wait_of (value_in env pool.old word) (value_in env pool.old access) }
    ensures net { Is pool.new result 1 4 }
    ensures scope { (s : Scope) → IsIn s pool.old word → IsIn s pool.old access → IsIn s pool.new result }
    ensures step { Step pool.old pool.new 4 }
{
    let other = not(pool, access);
    let bit = slice(pool, word, 29, 29);
    let clear = not(pool, bit);
    and(pool, other, clear)
}

/// One bit: an access writes, always or since its rs1 field is not 0.
#[tactic(auto, unfolding(crate::specs::Machine::write_of))]
fn writing(pool: &mut Pool, word: Net) -> Net
    requires spare { 7 ≤ pool.old.spare }
    requires word { Is pool.old word 32 4 }
    ensures value { (env : Env) → value_in env pool.new result ≡ write_of (value_in env pool.old word) }
    ensures net { Is pool.new result 1 4 }
    ensures scope { (s : Scope) → IsIn s pool.old word → IsIn s pool.new result }
    ensures step { Step pool.old pool.new 7 }
{
    let bit = slice(pool, word, 13, 13);
    let always = not(pool, bit);
    let field = slice(pool, word, 19, 15);
    let zero = lit(pool, 5, 0);
    let none = eq(pool, field, zero);
    let some = not(pool, none);
    or(pool, always, some)
}

/// What the word is.
#[tactic(auto, using(hw_gates::proofs::Plain::plain))]
pub(crate) fn kind_nets(pool: &mut Pool, word: Net) -> Kind
    requires spare { 17 ≤ pool.old.spare }
    requires word { Is pool.old word 32 4 }
    ensures access { (env : Env) → value_in env pool.new result.access ≡ access_of (value_in env pool.old word) }
    ensures returns { (env : Env) → value_in env pool.new result.returns ≡ return_of (value_in env pool.old word) (access_of (value_in env pool.old word)) }
    ensures waits { (env : Env) → value_in env pool.new result.waits ≡ wait_of (value_in env pool.old word) (access_of (value_in env pool.old word)) }
    ensures writes { (env : Env) → value_in env pool.new result.writes ≡ write_of (value_in env pool.old word) }
    ensures nets { IsKind pool.new result }
    ensures scope { (s : Scope) → IsIn s pool.old word → IsKindIn s pool.new result }
    ensures step { Step pool.old pool.new 17 }
{
    let access = access(pool, word);
    let returns = returned(pool, word, access);
    let waits = waiting(pool, word, access);
    let writes = writing(pool, word);
    Kind {
        access,
        returns,
        waits,
        writes,
    }
}

/// The operand of an access: the rs1 field, or the value of register rs1.
#[tactic(auto, unfolding(crate::specs::Machine::operand_by))]
fn operand(pool: &mut Pool, word: Net, a: Net) -> Net
    requires spare { 5 ≤ pool.old.spare }
    requires word { Is pool.old word 32 4 }
    requires a { Is pool.old a 32 4 }
    ensures value { (env : Env) → value_in env pool.new result ≡ operand_by (value_in env pool.old word) (value_in env pool.old a) }
    ensures net { Is pool.new result 32 4 }
    ensures scope { (s : Scope) → IsIn s pool.old word → IsIn s pool.old a → IsIn s pool.new result }
    ensures step { Step pool.old pool.new 5 }
{
    let immediate = slice(pool, word, 14, 14);
    let field = slice(pool, word, 19, 15);
    let above = lit(pool, 27, 0);
    let number = cat(pool, above, field);
    mux(pool, immediate, number, a)
}

/// The value that an access writes, by the one that it reads.
#[tactic(auto, unfolding(crate::specs::Machine::changed_by))]
fn changed(pool: &mut Pool, word: Net, operand: Net, old: Net) -> Net
    requires spare { 7 ≤ pool.old.spare }
    requires word { Is pool.old word 32 4 }
    requires operand { Is pool.old operand 32 4 }
    requires old { Is pool.old old 32 4 }
    ensures value { (env : Env) → value_in env pool.new result ≡ changed_by (value_in env pool.old word) (value_in env pool.old operand) (value_in env pool.old old) }
    ensures net { Is pool.new result 32 4 }
    ensures scope { (s : Scope) → IsIn s pool.old word → IsIn s pool.old operand → IsIn s pool.old old → IsIn s pool.new result }
    ensures step { Step pool.old pool.new 7 }
{
    let by_bits = slice(pool, word, 13, 13);
    let clears = slice(pool, word, 12, 12);
    let others = not(pool, operand);
    let cleared = and(pool, old, others);
    let set = or(pool, old, operand);
    let masked = mux(pool, clears, cleared, set);
    mux(pool, by_bits, masked, operand)
}

/// The value that an access writes, by the value of register rs1 and the one that it reads.
pub(crate) fn new_value(pool: &mut Pool, word: Net, a: Net, old: Net) -> Net
    requires spare { 12 ≤ pool.old.spare }
    requires word { Is pool.old word 32 4 }
    requires a { Is pool.old a 32 4 }
    requires old { Is pool.old old 32 4 }
    ensures value { (env : Env) → value_in env pool.new result ≡ changed_by (value_in env pool.old word) (operand_by (value_in env pool.old word) (value_in env pool.old a)) (value_in env pool.old old) }
    ensures net { Is pool.new result 32 4 }
    ensures scope { (s : Scope) → IsIn s pool.old word → IsIn s pool.old a → IsIn s pool.old old → IsIn s pool.new result }
    ensures step { Step pool.old pool.new 12 }
{
    let operand = operand(pool, word, a);
    changed(pool, word, operand, old)
}
