ghost use Rattle.std.specs.Prelude.{◌≡◌, ℕ, ◌≤◌};
ghost use Rattle.hw_pool.specs.Meaning.{Env};
ghost use Rattle.hw_pool.specs.Scope.{Scope};
ghost use Rattle.hw_gates.specs.Places.{Is, IsIn, Step, value_in};
ghost use Rattle.isa_model.specs.Effects.{behind};
ghost use Rattle.plug_predict.specs.Machine.{backward_of, chosen_of, guess_of, jal_of, reached_of, static_guess_of};

use crate::Style;
use hw_expr::Net;
use hw_gates::{add, and, cat, eq, lit, mux, not, or, slice};
use hw_pool::Pool;
use hw_words::{immediate_b, immediate_j};

/// One bit: the word is of JAL.
#[tactic(auto, unfolding(crate::specs::Machine::jal_of))]
fn jal(pool: &mut Pool, word: Net) -> Net
    requires spare { 3 ≤ pool.old.spare }
    requires word { Is pool.old word 32 1 }
    ensures value { (env : Env) → value_in env pool.new result ≡ jal_of (value_in env pool.old word) }
    ensures net { Is pool.new result 1 1 }
    ensures scope { (s : Scope) → IsIn s pool.old word → IsIn s pool.new result }
    ensures step { Step pool.old pool.new 3 }
{
    let opcode = slice(pool, word, 6, 0);
    let jumps = lit(pool, 7, 0x6f);
    eq(pool, opcode, jumps)
}

/// One bit: the word is of a branch that goes backward.
#[tactic(auto, unfolding(crate::specs::Machine::backward_of))]
fn backward(pool: &mut Pool, word: Net) -> Net
    requires spare { 10 ≤ pool.old.spare }
    requires word { Is pool.old word 32 1 }
    ensures value { (env : Env) → value_in env pool.new result ≡ backward_of (value_in env pool.old word) }
    ensures net { Is pool.new result 1 1 }
    ensures scope { (s : Scope) → IsIn s pool.old word → IsIn s pool.new result }
    ensures step { Step pool.old pool.new 10 }
{
    let opcode = slice(pool, word, 6, 0);
    let branches = lit(pool, 7, 0x63);
    let is_opcode = eq(pool, opcode, branches);
    let funct = slice(pool, word, 14, 13);
    let none = lit(pool, 2, 1);
    let is_none = eq(pool, funct, none);
    let is_some = not(pool, is_none);
    let is_branch = and(pool, is_opcode, is_some);
    let sign = slice(pool, word, 31, 31);
    and(pool, is_branch, sign)
}

/// The sum of the pc and an immediate, of 32 bits, whose low two bits are cleared.
#[tactic(auto, unfolding(crate::specs::Machine::reached_of))]
fn reached(pool: &mut Pool, pc: Net, immediate: Net) -> Net
    requires spare { 4 ≤ pool.old.spare }
    requires pc { Is pool.old pc 32 1 }
    requires immediate { Is pool.old immediate 32 1 }
    ensures value { (env : Env) → value_in env pool.new result ≡ reached_of (value_in env pool.old pc) (value_in env pool.old immediate) }
    ensures net { Is pool.new result 32 1 }
    ensures scope { (s : Scope) → IsIn s pool.old pc → IsIn s pool.old immediate → IsIn s pool.new result }
    ensures step { Step pool.old pool.new 4 }
{
    let high = slice(pool, immediate, 31, 2);
    let zeros = lit(pool, 2, 0);
    let whole = cat(pool, high, zeros);
    add(pool, pc, whole)
}

/// The pc behind the instruction.
fn pc_behind(pool: &mut Pool, pc: Net) -> Net
    requires spare { 2 ≤ pool.old.spare }
    requires pc { Is pool.old pc 32 1 }
    ensures value { (env : Env) → value_in env pool.new result ≡ behind (value_in env pool.old pc) }
    ensures net { Is pool.new result 32 1 }
    ensures scope { (s : Scope) → IsIn s pool.old pc → IsIn s pool.new result }
    ensures step { Step pool.old pool.new 2 }
{
    let four = lit(pool, 32, 4);
    add(pool, pc, four)
}

/// One of both targets where one is taken, else the pc behind.
#[tactic(auto, unfolding(crate::specs::Machine::chosen_of))]
fn chosen(pool: &mut Pool, jal: Net, backward: Net, jump: Net, branch: Net, next: Net) -> Net
    requires spare { 3 ≤ pool.old.spare }
    requires jal { Is pool.old jal 1 1 }
    requires backward { Is pool.old backward 1 1 }
    requires jump { Is pool.old jump 32 1 }
    requires branch { Is pool.old branch 32 1 }
    requires next { Is pool.old next 32 1 }
    ensures value { (env : Env) → value_in env pool.new result
        ≡ chosen_of (value_in env pool.old jal) (value_in env pool.old backward) (value_in env pool.old jump) (value_in env pool.old branch) (value_in env pool.old next) }
    ensures net { Is pool.new result 32 1 }
    ensures scope { (s : Scope) → IsIn s pool.old jal → IsIn s pool.old backward → IsIn s pool.old jump → IsIn s pool.old branch → IsIn s pool.old next → IsIn s pool.new result }
    ensures step { Step pool.old pool.new 3 }
{
    let taken = or(pool, jal, backward);
    let target = mux(pool, jal, jump, branch);
    mux(pool, taken, target, next)
}

/// The guess of the style `Static`.
#[tactic(auto, unfolding(crate::specs::Machine::static_guess_of))]
fn static_guess(pool: &mut Pool, pc: Net, word: Net) -> Net
    requires spare { 52 ≤ pool.old.spare }
    requires pc { Is pool.old pc 32 1 }
    requires word { Is pool.old word 32 1 }
    ensures value { (env : Env) → value_in env pool.new result ≡ static_guess_of (value_in env pool.old pc) (value_in env pool.old word) }
    ensures net { Is pool.new result 32 1 }
    ensures scope { (s : Scope) → IsIn s pool.old pc → IsIn s pool.old word → IsIn s pool.new result }
    ensures step { Step pool.old pool.new 52 }
{
    let jal = jal(pool, word);
    let backward = backward(pool, word);
    let far = immediate_j(pool, word);
    let jump = reached(pool, pc, far);
    let near = immediate_b(pool, word);
    let branch = reached(pool, pc, near);
    let next = pc_behind(pool, pc);
    chosen(pool, jal, backward, jump, branch, next)
}

/// The guess of a style about a pc and the word there, of 32 bits each.
pub fn guess(pool: &mut Pool, style: Style, pc: Net, word: Net) -> Net
    requires spare { 52 ≤ pool.old.spare }
    requires pc { Is pool.old pc 32 1 }
    requires word { Is pool.old word 32 1 }
    ensures value { (env : Env) → value_in env pool.new result ≡ guess_of style (value_in env pool.old pc) (value_in env pool.old word) }
    ensures net { Is pool.new result 32 1 }
    ensures scope { (s : Scope) → IsIn s pool.old pc → IsIn s pool.old word → IsIn s pool.new result }
    ensures step { Step pool.old pool.new 52 }
{
    match style {
        Style::Next => pc_behind(pool, pc),
        Style::Static => static_guess(pool, pc, word),
    }
}
