ghost use Rattle.std.specs.Prelude.{◌≡◌, ℕ, ◌≤◌};
ghost use Rattle.hw_pool.specs.Meaning.{Env};
ghost use Rattle.hw_pool.specs.Scope.{Scope};
ghost use Rattle.hw_gates.specs.Places.{Is, IsIn, Step, value_in};
ghost use Rattle.plug_shift.specs.Machine.{amount_of, barrel_value, fill_of, turned_of};

use hw_expr::Net;
use hw_gates::{and, mux, slice};
use hw_pool::Pool;
use hw_words::{reverse, shifted};

/// By how many places: the low five bits of the register, or of the immediate.
#[tactic(auto, unfolding(crate::specs::Machine::amount_of))]
pub(crate) fn amount(pool: &mut Pool, word: Net, b: Net) -> Net
    requires spare { 4 ≤ pool.old.spare }
    requires word { Is pool.old word 32 4 }
    requires b { Is pool.old b 32 4 }
    ensures value { (env : Env) → value_in env pool.new result ≡ amount_of (value_in env pool.old word) (value_in env pool.old b) }
    ensures net { Is pool.new result 5 4 }
    ensures scope { (s : Scope) → IsIn s pool.old word → IsIn s pool.old b → IsIn s pool.new result }
    ensures step { Step pool.old pool.new 4 }
{
    let by_register = slice(pool, word, 5, 5);
    let register = slice(pool, b, 4, 0);
    let immediate = slice(pool, word, 24, 20);
    mux(pool, by_register, register, immediate)
}

/// The bit that comes in from above: the sign in an arithmetic shift, else 0.
#[tactic(auto, unfolding(crate::specs::Machine::fill_of))]
pub(crate) fn fill(pool: &mut Pool, word: Net, x: Net) -> Net
    requires spare { 3 ≤ pool.old.spare }
    requires word { Is pool.old word 32 4 }
    requires x { Is pool.old x 32 4 }
    ensures value { (env : Env) → value_in env pool.new result ≡ fill_of (value_in env pool.old word) (value_in env pool.old x) }
    ensures net { Is pool.new result 1 4 }
    ensures scope { (s : Scope) → IsIn s pool.old word → IsIn s pool.old x → IsIn s pool.new result }
    ensures step { Step pool.old pool.new 3 }
{
    let arithmetic = slice(pool, word, 30, 30);
    let sign = slice(pool, x, 31, 31);
    and(pool, arithmetic, sign)
}

/// The bits as they are for a right shift, and in reverse for a left one.
#[tactic(auto, unfolding(crate::specs::Machine::turned_of))]
fn turned(pool: &mut Pool, word: Net, x: Net) -> Net
    requires spare { 65 ≤ pool.old.spare }
    requires word { Is pool.old word 32 4 }
    requires x { Is pool.old x 32 4 }
    ensures value { (env : Env) → value_in env pool.new result ≡ turned_of (value_in env pool.old word) (value_in env pool.old x) }
    ensures net { Is pool.new result 32 4 }
    ensures scope { (s : Scope) → IsIn s pool.old word → IsIn s pool.old x → IsIn s pool.new result }
    ensures step { Step pool.old pool.new 65 }
{
    let right = slice(pool, word, 14, 14);
    let mirrored = reverse(pool, x);
    mux(pool, right, x, mirrored)
}

/// The barrel shifter: right shifts alone, of the bits in reverse for a left shift.
#[tactic(auto, unfolding(crate::specs::Machine::barrel_value))]
pub(crate) fn barrel(pool: &mut Pool, word: Net, a: Net, b: Net) -> Net
    requires spare { 172 ≤ pool.old.spare }
    requires word { Is pool.old word 32 4 }
    requires a { Is pool.old a 32 4 }
    requires b { Is pool.old b 32 4 }
    ensures value { (env : Env) (pc : ℕ) → value_in env pool.new result ≡ barrel_value (value_in env pool.old word) pc (value_in env pool.old a) (value_in env pool.old b) }
    ensures net { Is pool.new result 32 4 }
    ensures scope { (s : Scope) → IsIn s pool.old word → IsIn s pool.old a → IsIn s pool.old b → IsIn s pool.new result }
    ensures step { Step pool.old pool.new 172 }
{
    let by = amount(pool, word, b);
    let above = fill(pool, word, a);
    let x = turned(pool, word, a);
    let moved = shifted(pool, by, above, x);
    turned(pool, word, moved)
}
