ghost use Rattle.std.specs.Prelude.{◌≡◌, ℕ, ◌≤◌};
ghost use Rattle.hw_pool.specs.Meaning.{Env};
ghost use Rattle.hw_pool.specs.Scope.{Scope};
ghost use Rattle.hw_gates.specs.Places.{Is, IsIn, Step, value_in};
ghost use Rattle.isa_model.specs.Effects.{behind};
ghost use Rattle.plug_branch.specs.Machine.{holds_of, indirect_of, next_of, offset_of, sum_of, taken_of, target_of, tested_of, trap_of, trap_on};

use hw_expr::Net;
use hw_gates::{add, and, cat, eq, lit, mux, not, or, slice, xor};
use hw_pool::Pool;
use hw_words::{immediate_b, immediate_i, immediate_j, lower, same};

/// What the unit shows of an instruction.
#[derive(Clone, Copy, Debug)]
pub struct Flow {
    /// The pc behind the instruction, of 32 bits: the value of a jump.
    pub value: Net,
    /// The pc at which the program goes on, of 32 bits.
    pub next_pc: Net,
    /// One bit: the instruction traps, since that pc is a target that is no multiple of 4.
    pub trap: Net,
}

/// One bit: the comparison that the word names, before it is turned over.
#[tactic(auto, unfolding(crate::specs::Machine::tested_of))]
fn tested(pool: &mut Pool, word: Net, a: Net, b: Net) -> Net
    requires spare { 33 ≤ pool.old.spare }
    requires word { Is pool.old word 32 4 }
    requires a { Is pool.old a 32 4 }
    requires b { Is pool.old b 32 4 }
    ensures value { (env : Env) → value_in env pool.new result ≡ tested_of (value_in env pool.old word) (value_in env pool.old a) (value_in env pool.old b) }
    ensures net { Is pool.new result 1 4 }
    ensures scope { (s : Scope) → IsIn s pool.old word → IsIn s pool.old a → IsIn s pool.old b → IsIn s pool.new result }
    ensures step { Step pool.old pool.new 33 }
{
    let unsigned = slice(pool, word, 13, 13);
    let signed = not(pool, unsigned);
    let less = lower(pool, signed, a, b);
    let equal = same(pool, a, b);
    let orders = slice(pool, word, 14, 14);
    mux(pool, orders, less, equal)
}

/// One bit: the condition of a branch.
#[tactic(auto, unfolding(crate::specs::Machine::holds_of))]
fn holds(pool: &mut Pool, word: Net, a: Net, b: Net) -> Net
    requires spare { 35 ≤ pool.old.spare }
    requires word { Is pool.old word 32 4 }
    requires a { Is pool.old a 32 4 }
    requires b { Is pool.old b 32 4 }
    ensures value { (env : Env) → value_in env pool.new result ≡ holds_of (value_in env pool.old word) (value_in env pool.old a) (value_in env pool.old b) }
    ensures net { Is pool.new result 1 4 }
    ensures scope { (s : Scope) → IsIn s pool.old word → IsIn s pool.old a → IsIn s pool.old b → IsIn s pool.new result }
    ensures step { Step pool.old pool.new 35 }
{
    let test = tested(pool, word, a, b);
    let turns = slice(pool, word, 12, 12);
    xor(pool, test, turns)
}

/// One bit: the target is taken.
#[tactic(auto, unfolding(crate::specs::Machine::taken_of))]
fn taken(pool: &mut Pool, word: Net, a: Net, b: Net) -> Net
    requires spare { 37 ≤ pool.old.spare }
    requires word { Is pool.old word 32 4 }
    requires a { Is pool.old a 32 4 }
    requires b { Is pool.old b 32 4 }
    ensures value { (env : Env) → value_in env pool.new result ≡ taken_of (value_in env pool.old word) (value_in env pool.old a) (value_in env pool.old b) }
    ensures net { Is pool.new result 1 4 }
    ensures scope { (s : Scope) → IsIn s pool.old word → IsIn s pool.old a → IsIn s pool.old b → IsIn s pool.new result }
    ensures step { Step pool.old pool.new 37 }
{
    let condition = holds(pool, word, a, b);
    let jumps = slice(pool, word, 2, 2);
    or(pool, jumps, condition)
}

/// The immediate of the target: that of the J format for JAL, of the I format for JALR, else of the B format.
#[tactic(auto, unfolding(crate::specs::Machine::offset_of))]
fn offset(pool: &mut Pool, word: Net) -> Net
    requires spare { 36 ≤ pool.old.spare }
    requires word { Is pool.old word 32 4 }
    ensures value { (env : Env) → value_in env pool.new result ≡ offset_of (value_in env pool.old word) }
    ensures net { Is pool.new result 32 4 }
    ensures scope { (s : Scope) → IsIn s pool.old word → IsIn s pool.new result }
    ensures step { Step pool.old pool.new 36 }
{
    let jump = immediate_j(pool, word);
    let register = immediate_i(pool, word);
    let branch = immediate_b(pool, word);
    let jumps = slice(pool, word, 2, 2);
    let other = mux(pool, jumps, register, branch);
    let is_jal = slice(pool, word, 3, 3);
    mux(pool, is_jal, jump, other)
}

/// One bit: the word is of JALR.
#[tactic(auto, unfolding(crate::specs::Machine::indirect_of))]
fn indirect(pool: &mut Pool, word: Net) -> Net
    requires spare { 4 ≤ pool.old.spare }
    requires word { Is pool.old word 32 4 }
    ensures value { (env : Env) → value_in env pool.new result ≡ indirect_of (value_in env pool.old word) }
    ensures net { Is pool.new result 1 4 }
    ensures scope { (s : Scope) → IsIn s pool.old word → IsIn s pool.new result }
    ensures step { Step pool.old pool.new 4 }
{
    let jumps = slice(pool, word, 2, 2);
    let is_jal = slice(pool, word, 3, 3);
    let other = not(pool, is_jal);
    and(pool, jumps, other)
}

/// The sum of the register, for JALR, or of the pc, and the immediate.
#[tactic(auto, unfolding(crate::specs::Machine::sum_of))]
fn sum(pool: &mut Pool, word: Net, pc: Net, a: Net) -> Net
    requires spare { 42 ≤ pool.old.spare }
    requires word { Is pool.old word 32 4 }
    requires pc { Is pool.old pc 32 4 }
    requires a { Is pool.old a 32 4 }
    ensures value { (env : Env) → value_in env pool.new result ≡ sum_of (value_in env pool.old word) (value_in env pool.old pc) (value_in env pool.old a) }
    ensures net { Is pool.new result 32 4 }
    ensures scope { (s : Scope) → IsIn s pool.old word → IsIn s pool.old pc → IsIn s pool.old a → IsIn s pool.new result }
    ensures step { Step pool.old pool.new 42 }
{
    let by_register = indirect(pool, word);
    let start = mux(pool, by_register, a, pc);
    let offset = offset(pool, word);
    add(pool, start, offset)
}

/// The target: the sum, of which JALR clears bit 0.
#[tactic(auto, unfolding(crate::specs::Machine::target_of))]
fn target(pool: &mut Pool, word: Net, pc: Net, a: Net) -> Net
    requires spare { 51 ≤ pool.old.spare }
    requires word { Is pool.old word 32 4 }
    requires pc { Is pool.old pc 32 4 }
    requires a { Is pool.old a 32 4 }
    ensures value { (env : Env) → value_in env pool.new result ≡ target_of (value_in env pool.old word) (value_in env pool.old pc) (value_in env pool.old a) }
    ensures net { Is pool.new result 32 4 }
    ensures scope { (s : Scope) → IsIn s pool.old word → IsIn s pool.old pc → IsIn s pool.old a → IsIn s pool.new result }
    ensures step { Step pool.old pool.new 51 }
{
    let sum = sum(pool, word, pc, a);
    let high = slice(pool, sum, 31, 1);
    let low = slice(pool, sum, 0, 0);
    let by_register = indirect(pool, word);
    let direct = not(pool, by_register);
    let kept = and(pool, low, direct);
    cat(pool, high, kept)
}

/// The pc behind the instruction.
fn pc_behind(pool: &mut Pool, pc: Net) -> Net
    requires spare { 2 ≤ pool.old.spare }
    requires pc { Is pool.old pc 32 4 }
    ensures value { (env : Env) → value_in env pool.new result ≡ behind (value_in env pool.old pc) }
    ensures net { Is pool.new result 32 4 }
    ensures scope { (s : Scope) → IsIn s pool.old pc → IsIn s pool.new result }
    ensures step { Step pool.old pool.new 2 }
{
    let four = lit(pool, 32, 4);
    add(pool, pc, four)
}

/// One bit: the target is taken and is no multiple of 4.
#[tactic(auto, unfolding(crate::specs::Machine::trap_on))]
fn trap(pool: &mut Pool, taken: Net, target: Net) -> Net
    requires spare { 5 ≤ pool.old.spare }
    requires taken { Is pool.old taken 1 4 }
    requires target { Is pool.old target 32 4 }
    ensures value { (env : Env) → value_in env pool.new result ≡ trap_on (value_in env pool.old taken) (value_in env pool.old target) }
    ensures net { Is pool.new result 1 4 }
    ensures scope { (s : Scope) → IsIn s pool.old taken → IsIn s pool.old target → IsIn s pool.new result }
    ensures step { Step pool.old pool.new 5 }
{
    let low = slice(pool, target, 1, 0);
    let zero = lit(pool, 2, 0);
    let whole = eq(pool, low, zero);
    let broken = not(pool, whole);
    and(pool, taken, broken)
}

/// What the unit shows of a word of one of its rows, at a pc and with the values of both registers, of 32 bits each.
#[tactic(auto, unfolding(crate::specs::Machine::goes_on, crate::specs::Machine::next_of, crate::specs::Machine::trap_of))]
pub fn next_flow(pool: &mut Pool, word: Net, pc: Net, a: Net, b: Net) -> Flow
    requires spare { 96 ≤ pool.old.spare }
    requires word { Is pool.old word 32 4 }
    requires pc { Is pool.old pc 32 4 }
    requires a { Is pool.old a 32 4 }
    requires b { Is pool.old b 32 4 }
    ensures value { (env : Env) → value_in env pool.new result.value ≡ behind (value_in env pool.old pc) }
    ensures next_pc { (env : Env) → value_in env pool.new result.next_pc
        ≡ next_of (value_in env pool.old word) (value_in env pool.old pc) (value_in env pool.old a) (value_in env pool.old b) }
    ensures trap { (env : Env) → value_in env pool.new result.trap
        ≡ trap_of (value_in env pool.old word) (value_in env pool.old pc) (value_in env pool.old a) (value_in env pool.old b) }
    ensures nets { Is pool.new result.value 32 4 × Is pool.new result.next_pc 32 4 × Is pool.new result.trap 1 4 }
    ensures scope { (s : Scope) → IsIn s pool.old word → IsIn s pool.old pc → IsIn s pool.old a → IsIn s pool.old b
        → IsIn s pool.new result.value × IsIn s pool.new result.next_pc × IsIn s pool.new result.trap }
    ensures step { Step pool.old pool.new 96 }
{
    let taken = taken(pool, word, a, b);
    let target = target(pool, word, pc, a);
    let value = pc_behind(pool, pc);
    let next_pc = mux(pool, taken, target, value);
    let trap = trap(pool, taken, target);
    Flow {
        value,
        next_pc,
        trap,
    }
}
