ghost use Rattle.std.specs.Prelude.{◌≡◌, ℕ, ◌≤◌, [], ◌∷◌};
ghost use Rattle.hw_pool.specs.Meaning.{Env};
ghost use Rattle.hw_pool.specs.Scope.{Scope};
ghost use Rattle.hw_gates.specs.Places.{Is, IsIn, Step, value_in};
ghost use Rattle.plug_hazard.specs.Machine.{after, chosen_of, hit_of, hold_of, is_register_of, missing_of, three};
ghost use Rattle.plug_hazard.specs.Nets.{IsOperand, IsOperandIn, IsStage, IsStageIn, chosen_in, told_in};

use hw_expr::Net;
use hw_gates::{and, eq, lit, mux, not, or};
use hw_pool::Pool;

/// What a stage behind decode shows of its item: one bit that is 1 where it writes a register, the register of 5 bits, one
/// bit that is 1 where its result is there, and the result of 32 bits.
#[derive(Clone, Copy, Debug)]
pub struct Stage {
    pub writes: Net,
    pub rd: Net,
    pub ready: Net,
    pub value: Net,
}

/// An operand of 32 bits, and one bit that is 1 where it cannot be had yet.
#[derive(Clone, Copy, Debug)]
pub struct Operand {
    pub value: Net,
    pub bad: Net,
}

/// One bit: 1 where the number of a register is not 0.
#[tactic(auto, unfolding(crate::specs::Machine::is_register_of))]
fn is_register(pool: &mut Pool, r: Net) -> Net
    requires spare { 3 ≤ pool.old.spare }
    requires r { Is pool.old r 5 5 }
    ensures value { (env : Env) → value_in env pool.new result ≡ is_register_of (value_in env pool.old r) }
    ensures net { Is pool.new result 1 5 }
    ensures scope { (s : Scope) → IsIn s pool.old r → IsIn s pool.new result }
    ensures step { Step pool.old pool.new 3 }
{
    let zero = lit(pool, 5, 0);
    let none = eq(pool, r, zero);
    not(pool, none)
}

/// One bit: 1 where the stage writes the register, of which the one bit `register` says whether its number is not 0.
#[tactic(auto, unfolding(crate::specs::Machine::hit_of))]
fn hit(pool: &mut Pool, r: Net, register: Net, stage: Stage) -> Net
    requires spare { 3 ≤ pool.old.spare }
    requires r { Is pool.old r 5 5 }
    requires register { Is pool.old register 1 5 }
    requires is_register { (env : Env) → value_in env pool.old register ≡ is_register_of (value_in env pool.old r) }
    requires stage { IsStage pool.old stage }
    ensures value { (env : Env) → value_in env pool.new result ≡ hit_of (value_in env pool.old r) (told_in env pool.old stage) }
    ensures net { Is pool.new result 1 5 }
    ensures scope { (s : Scope) → IsIn s pool.old r → IsIn s pool.old register → IsStageIn s pool.old stage → IsIn s pool.new result }
    ensures step { Step pool.old pool.new 3 }
{
    let same = eq(pool, stage.rd, r);
    let written = and(pool, stage.writes, same);
    and(pool, written, register)
}

/// One bit: 1 where the stage's result is not there, or not used.
fn missing(pool: &mut Pool, stage: Stage, bypassed: bool) -> Net
    requires spare { 1 ≤ pool.old.spare }
    requires stage { IsStage pool.old stage }
    ensures value { (env : Env) → value_in env pool.new result ≡ missing_of bypassed (told_in env pool.old stage) }
    ensures net { Is pool.new result 1 5 }
    ensures scope { (s : Scope) → IsStageIn s pool.old stage → IsIn s pool.new result }
    ensures step { Step pool.old pool.new 1 }
{
    if bypassed {
        not(pool, stage.ready)
    } else {
        lit(pool, 1, 1)
    }
}

/// The operand with one stage more, which is younger.
#[tactic(auto, unfolding(crate::specs::Machine::after))]
fn with_stage(
    pool: &mut Pool,
    r: Net,
    register: Net,
    stage: Stage,
    bypassed: bool,
    below: Operand,
) -> Operand
    requires spare { 6 ≤ pool.old.spare }
    requires r { Is pool.old r 5 5 }
    requires register { Is pool.old register 1 5 }
    requires is_register { (env : Env) → value_in env pool.old register ≡ is_register_of (value_in env pool.old r) }
    requires stage { IsStage pool.old stage }
    requires below { IsOperand pool.old below }
    ensures chosen { (env : Env) → chosen_in env pool.new result ≡ after (value_in env pool.old r) bypassed (told_in env pool.old stage) (chosen_in env pool.old below) }
    ensures net { IsOperand pool.new result }
    ensures scope { (s : Scope) → IsIn s pool.old r → IsIn s pool.old register → IsStageIn s pool.old stage → IsOperandIn s pool.old below → IsOperandIn s pool.new result }
    ensures step { Step pool.old pool.new 6 }
{
    let hit = hit(pool, r, register, stage);
    let missing = missing(pool, stage, bypassed);
    let value = mux(pool, hit, stage.value, below.value);
    let bad = mux(pool, hit, missing, below.bad);
    Operand { value, bad }
}

/// An operand: the result of the youngest of three stages that writes the register, else what the registers say. Each stage
/// comes with whether it is bypassed, the youngest first.
#[tactic(auto, unfolding(crate::specs::Machine::chosen_of))]
pub fn choose_operand(
    pool: &mut Pool,
    r: Net,
    plain: Net,
    first: (Stage, bool),
    second: (Stage, bool),
    third: (Stage, bool),
) -> Operand
    requires spare { 22 ≤ pool.old.spare }
    requires r { Is pool.old r 5 5 }
    requires plain { Is pool.old plain 32 5 }
    requires first { IsStage pool.old first.0 }
    requires second { IsStage pool.old second.0 }
    requires third { IsStage pool.old third.0 }
    ensures chosen { (env : Env) → chosen_in env pool.new result
        ≡ chosen_of (value_in env pool.old r) (three first.1 second.1 third.1)
        (told_in env pool.old first.0 ∷ told_in env pool.old second.0 ∷ told_in env pool.old third.0 ∷ []) (value_in env pool.old plain) }
    ensures net { IsOperand pool.new result }
    ensures scope { (s : Scope) → IsIn s pool.old r → IsIn s pool.old plain → IsStageIn s pool.old first.0 → IsStageIn s pool.old second.0
        → IsStageIn s pool.old third.0 → IsOperandIn s pool.new result }
    ensures step { Step pool.old pool.new 22 }
{
    let register = is_register(pool, r);
    let bad = lit(pool, 1, 0);
    let own = Operand { value: plain, bad };
    let far = with_stage(pool, r, register, third.0, third.1, own);
    let middle = with_stage(pool, r, register, second.0, second.1, far);
    with_stage(pool, r, register, first.0, first.1, middle)
}

/// One bit: 1 where an operand in use cannot be had.
#[tactic(auto, unfolding(crate::specs::Machine::hold_of))]
pub fn hold(pool: &mut Pool, uses_a: Net, a: Operand, uses_b: Net, b: Operand) -> Net
    requires spare { 3 ≤ pool.old.spare }
    requires uses_a { Is pool.old uses_a 1 5 }
    requires uses_b { Is pool.old uses_b 1 5 }
    requires a { IsOperand pool.old a }
    requires b { IsOperand pool.old b }
    ensures value { (env : Env) → value_in env pool.new result
        ≡ hold_of (value_in env pool.old uses_a) (chosen_in env pool.old a).bad (value_in env pool.old uses_b) (chosen_in env pool.old b).bad }
    ensures net { Is pool.new result 1 5 }
    ensures scope { (s : Scope) → IsIn s pool.old uses_a → IsOperandIn s pool.old a → IsIn s pool.old uses_b → IsOperandIn s pool.old b → IsIn s pool.new result }
    ensures step { Step pool.old pool.new 3 }
{
    let waits_a = and(pool, uses_a, a.bad);
    let waits_b = and(pool, uses_b, b.bad);
    or(pool, waits_a, waits_b)
}
