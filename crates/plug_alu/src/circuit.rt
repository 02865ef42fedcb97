ghost use Rattle.std.specs.Prelude.{◌≡◌, ℕ, ◌≤◌};
ghost use Rattle.hw_pool.specs.Meaning.{Env};
ghost use Rattle.hw_pool.specs.Scope.{Scope};
ghost use Rattle.hw_gates.specs.Places.{Is, IsIn, Step, value_in};
ghost use Rattle.plug_alu.specs.Machine.{alu_value, is_arithmetic_of, is_logic_of, less_of, logic_of, second_of, subtracts, summed_of, tested_of, upper_of};

use hw_expr::Net;
use hw_gates::{add, and, cat, lit, mux, not, or, slice, xor};
use hw_pool::Pool;
use hw_words::{adder, immediate_i, immediate_u};

/// The second operand: the register, or the immediate.
#[tactic(auto, unfolding(crate::specs::Machine::second_of))]
fn second(pool: &mut Pool, word: Net, b: Net) -> Net
    requires spare { 8 ≤ pool.old.spare }
    requires word { Is pool.old word 32 4 }
    requires b { Is pool.old b 32 4 }
    ensures value { (env : Env) → value_in env pool.new result ≡ second_of (value_in env pool.old word) (value_in env pool.old b) }
    ensures net { Is pool.new result 32 4 }
    ensures scope { (s : Scope) → IsIn s pool.old word → IsIn s pool.old b → IsIn s pool.new result }
    ensures step { Step pool.old pool.new 8 }
{
    let register = slice(pool, word, 5, 5);
    let immediate = immediate_i(pool, word);
    mux(pool, register, b, immediate)
}

/// One bit: 1 for a difference.
#[tactic(auto, unfolding(crate::specs::Machine::subtracts))]
fn subtraction(pool: &mut Pool, word: Net) -> Net
    requires spare { 5 ≤ pool.old.spare }
    requires word { Is pool.old word 32 4 }
    ensures value { (env : Env) → value_in env pool.new result ≡ subtracts (value_in env pool.old word) }
    ensures net { Is pool.new result 1 4 }
    ensures scope { (s : Scope) → IsIn s pool.old word → IsIn s pool.new result }
    ensures step { Step pool.old pool.new 5 }
{
    let register = slice(pool, word, 5, 5);
    let other = slice(pool, word, 30, 30);
    let difference = and(pool, register, other);
    let compares = slice(pool, word, 13, 13);
    or(pool, difference, compares)
}

/// One bit: the comparison, from the carry of the difference.
#[tactic(auto, unfolding(crate::specs::Machine::less_of))]
fn less(pool: &mut Pool, word: Net, a: Net, y: Net, carry: Net) -> Net
    requires spare { 7 ≤ pool.old.spare }
    requires word { Is pool.old word 32 4 }
    requires a { Is pool.old a 32 4 }
    requires y { Is pool.old y 32 4 }
    requires carry { Is pool.old carry 1 4 }
    ensures value { (env : Env) → value_in env pool.new result ≡ less_of (value_in env pool.old word) (value_in env pool.old a) (value_in env pool.old y) (value_in env pool.old carry) }
    ensures net { Is pool.new result 1 4 }
    ensures scope { (s : Scope) → IsIn s pool.old word → IsIn s pool.old a → IsIn s pool.old y → IsIn s pool.old carry → IsIn s pool.new result }
    ensures step { Step pool.old pool.new 7 }
{
    let below = not(pool, carry);
    let unsigned = slice(pool, word, 12, 12);
    let sign = slice(pool, a, 31, 31);
    let other = slice(pool, y, 31, 31);
    let once = xor(pool, below, sign);
    let twice = xor(pool, once, other);
    mux(pool, unsigned, below, twice)
}

/// The immediate of the U format, alone or on the pc, else 0.
#[tactic(auto, unfolding(crate::specs::Machine::upper_of))]
fn upper(pool: &mut Pool, word: Net, pc: Net) -> Net
    requires spare { 9 ≤ pool.old.spare }
    requires word { Is pool.old word 32 4 }
    requires pc { Is pool.old pc 32 4 }
    ensures value { (env : Env) → value_in env pool.new result ≡ upper_of (value_in env pool.old word) (value_in env pool.old pc) }
    ensures net { Is pool.new result 32 4 }
    ensures scope { (s : Scope) → IsIn s pool.old word → IsIn s pool.old pc → IsIn s pool.new result }
    ensures step { Step pool.old pool.new 9 }
{
    let is_lui = slice(pool, word, 5, 5);
    let immediate = immediate_u(pool, word);
    let sum = add(pool, pc, immediate);
    let chosen = mux(pool, is_lui, immediate, sum);
    let is_upper = slice(pool, word, 2, 2);
    let zero = lit(pool, 32, 0);
    mux(pool, is_upper, chosen, zero)
}

/// One bit: 1 where a bitwise function is asked.
#[tactic(auto, unfolding(crate::specs::Machine::is_logic_of))]
fn is_logic(pool: &mut Pool, word: Net) -> Net
    requires spare { 4 ≤ pool.old.spare }
    requires word { Is pool.old word 32 4 }
    ensures value { (env : Env) → value_in env pool.new result ≡ is_logic_of (value_in env pool.old word) }
    ensures net { Is pool.new result 1 4 }
    ensures scope { (s : Scope) → IsIn s pool.old word → IsIn s pool.new result }
    ensures step { Step pool.old pool.new 4 }
{
    let is_upper = slice(pool, word, 2, 2);
    let lower = not(pool, is_upper);
    let high = slice(pool, word, 14, 14);
    and(pool, lower, high)
}

/// The bitwise functions of both operands, else 0.
#[tactic(auto, unfolding(crate::specs::Machine::logic_of))]
fn logic(pool: &mut Pool, word: Net, a: Net, y: Net) -> Net
    requires spare { 13 ≤ pool.old.spare }
    requires word { Is pool.old word 32 4 }
    requires a { Is pool.old a 32 4 }
    requires y { Is pool.old y 32 4 }
    ensures value { (env : Env) → value_in env pool.new result ≡ logic_of (value_in env pool.old word) (value_in env pool.old a) (value_in env pool.old y) }
    ensures net { Is pool.new result 32 4 }
    ensures scope { (s : Scope) → IsIn s pool.old word → IsIn s pool.old a → IsIn s pool.old y → IsIn s pool.new result }
    ensures step { Step pool.old pool.new 13 }
{
    let both = and(pool, a, y);
    let any = or(pool, a, y);
    let one = xor(pool, a, y);
    let is_and = slice(pool, word, 12, 12);
    let joined = mux(pool, is_and, both, any);
    let is_joined = slice(pool, word, 13, 13);
    let chosen = mux(pool, is_joined, joined, one);
    let is_logic = is_logic(pool, word);
    let zero = lit(pool, 32, 0);
    mux(pool, is_logic, chosen, zero)
}

/// One bit: 1 where a sum, a difference or a comparison is asked.
#[tactic(auto, unfolding(crate::specs::Machine::is_arithmetic_of))]
fn is_arithmetic(pool: &mut Pool, word: Net) -> Net
    requires spare { 4 ≤ pool.old.spare }
    requires word { Is pool.old word 32 4 }
    ensures value { (env : Env) → value_in env pool.new result ≡ is_arithmetic_of (value_in env pool.old word) }
    ensures net { Is pool.new result 1 4 }
    ensures scope { (s : Scope) → IsIn s pool.old word → IsIn s pool.new result }
    ensures step { Step pool.old pool.new 4 }
{
    let is_upper = slice(pool, word, 2, 2);
    let high = slice(pool, word, 14, 14);
    let other = or(pool, is_upper, high);
    not(pool, other)
}

/// The sum, else 0.
#[tactic(auto, unfolding(crate::specs::Machine::summed_of))]
fn summed(pool: &mut Pool, word: Net, sum: Net) -> Net
    requires spare { 9 ≤ pool.old.spare }
    requires word { Is pool.old word 32 4 }
    requires sum { Is pool.old sum 32 4 }
    ensures value { (env : Env) → value_in env pool.new result ≡ summed_of (value_in env pool.old word) (value_in env pool.old sum) }
    ensures net { Is pool.new result 32 4 }
    ensures scope { (s : Scope) → IsIn s pool.old word → IsIn s pool.old sum → IsIn s pool.new result }
    ensures step { Step pool.old pool.new 9 }
{
    let arithmetic = is_arithmetic(pool, word);
    let compares = slice(pool, word, 13, 13);
    let adds = not(pool, compares);
    let has_sum = and(pool, arithmetic, adds);
    let zero = lit(pool, 32, 0);
    mux(pool, has_sum, sum, zero)
}

/// The comparison, else 0.
#[tactic(auto, unfolding(crate::specs::Machine::tested_of))]
fn tested(pool: &mut Pool, word: Net, less: Net) -> Net
    requires spare { 9 ≤ pool.old.spare }
    requires word { Is pool.old word 32 4 }
    requires less { Is pool.old less 1 4 }
    ensures value { (env : Env) → value_in env pool.new result ≡ tested_of (value_in env pool.old word) (value_in env pool.old less) }
    ensures net { Is pool.new result 32 4 }
    ensures scope { (s : Scope) → IsIn s pool.old word → IsIn s pool.old less → IsIn s pool.new result }
    ensures step { Step pool.old pool.new 9 }
{
    let arithmetic = is_arithmetic(pool, word);
    let compares = slice(pool, word, 13, 13);
    let has_test = and(pool, arithmetic, compares);
    let hit = and(pool, has_test, less);
    let zeros = lit(pool, 31, 0);
    cat(pool, zeros, hit)
}

/// The value of the integer unit.
#[tactic(auto, unfolding(crate::specs::Machine::alu_value))]
pub fn alu(pool: &mut Pool, word: Net, pc: Net, a: Net, b: Net) -> Net
    requires spare { 76 ≤ pool.old.spare }
    requires word { Is pool.old word 32 4 }
    requires pc { Is pool.old pc 32 4 }
    requires a { Is pool.old a 32 4 }
    requires b { Is pool.old b 32 4 }
    ensures value { (env : Env) → value_in env pool.new result ≡ alu_value (value_in env pool.old word) (value_in env pool.old pc) (value_in env pool.old a) (value_in env pool.old b) }
    ensures net { Is pool.new result 32 4 }
    ensures scope { (s : Scope) → IsIn s pool.old word → IsIn s pool.old pc → IsIn s pool.old a → IsIn s pool.old b → IsIn s pool.new result }
    ensures step { Step pool.old pool.new 76 }
{
    let y = second(pool, word, b);
    let subtracts = subtraction(pool, word);
    let (sum, carry) = adder(pool, subtracts, a, y);
    let less = less(pool, word, a, y, carry);
    let upper = upper(pool, word, pc);
    let logic = logic(pool, word, a, y);
    let early = or(pool, upper, logic);
    let summed = summed(pool, word, sum);
    let tested = tested(pool, word, less);
    let late = or(pool, summed, tested);
    or(pool, early, late)
}
