ghost use Rattle.std.specs.Prelude.{◌≡◌, ℕ, ◌≤◌};
ghost use Rattle.hw_pool.specs.Meaning.{Env};
ghost use Rattle.hw_pool.specs.Scope.{Scope};
ghost use Rattle.hw_gates.specs.Places.{Is, IsIn, Step, value_in};
ghost use Rattle.dbus_law.specs.Words.{address_of};
ghost use Rattle.plug_dbus.specs.Machine.{
  cause_of,
  done_of,
  given_of,
  misaligned_of,
  needs_none_of,
  owed_of,
  starts_of,
  trap_of,
  whole_of,
};

use hw_expr::Net;
use hw_gates::{add, and, cat, lit, mux, not, or, slice};
use hw_pool::Pool;
use hw_words::{immediate_i, immediate_s};

/// The address of a load or a store, of 32 bits, from its word and the value of register rs1.
#[tactic(auto, unfolding(dbus_law::specs::Words::address_of, dbus_law::specs::Words::kind_of))]
pub(crate) fn address(pool: &mut Pool, word: Net, a: Net) -> Net
    requires spare { 17 ≤ pool.old.spare }
    requires word { Is pool.old word 32 4 }
    requires a { Is pool.old a 32 4 }
    ensures value { (env : Env) → value_in env pool.new result ≡ address_of (value_in env pool.old word) (value_in env pool.old a) }
    ensures net { Is pool.new result 32 4 }
    ensures scope { (s : Scope) → IsIn s pool.old word → IsIn s pool.old a → IsIn s pool.new result }
    ensures step { Step pool.old pool.new 17 }
{
    let of_store = immediate_s(pool, word);
    let of_load = immediate_i(pool, word);
    let store = slice(pool, word, 5, 5);
    let offset = mux(pool, store, of_store, of_load);
    add(pool, a, offset)
}

/// One bit: 1 where the address is no multiple of the size.
#[tactic(auto, unfolding(crate::specs::Machine::misaligned_of))]
pub(crate) fn misaligned(pool: &mut Pool, word: Net, address: Net) -> Net
    requires spare { 8 ≤ pool.old.spare }
    requires word { Is pool.old word 32 4 }
    requires address { Is pool.old address 32 4 }
    ensures value { (env : Env) → value_in env pool.new result ≡ misaligned_of (value_in env pool.old word) (value_in env pool.old address) }
    ensures net { Is pool.new result 1 4 }
    ensures scope { (s : Scope) → IsIn s pool.old word → IsIn s pool.old address → IsIn s pool.new result }
    ensures step { Step pool.old pool.new 8 }
{
    let half = slice(pool, word, 12, 12);
    let whole = slice(pool, word, 13, 13);
    let low = slice(pool, address, 0, 0);
    let high = slice(pool, address, 1, 1);
    let odd = and(pool, half, low);
    let any = or(pool, high, low);
    let off = and(pool, whole, any);
    or(pool, odd, off)
}

/// The address of the word that an address lies in.
#[tactic(auto, unfolding(crate::specs::Machine::whole_of))]
pub(crate) fn whole_address(pool: &mut Pool, address: Net) -> Net
    requires spare { 3 ≤ pool.old.spare }
    requires address { Is pool.old address 32 4 }
    ensures value { (env : Env) → value_in env pool.new result ≡ whole_of (value_in env pool.old address) }
    ensures net { Is pool.new result 32 4 }
    ensures scope { (s : Scope) → IsIn s pool.old address → IsIn s pool.new result }
    ensures step { Step pool.old pool.new 3 }
{
    let above = slice(pool, address, 31, 2);
    let zeros = lit(pool, 2, 0);
    cat(pool, above, zeros)
}

/// One bit: 1 for what is done without a command, a FENCE or a misaligned access.
#[tactic(auto, unfolding(crate::specs::Machine::needs_none_of))]
pub(crate) fn needs_none(pool: &mut Pool, word: Net, misaligned: Net) -> Net
    requires spare { 2 ≤ pool.old.spare }
    requires word { Is pool.old word 32 4 }
    requires misaligned { Is pool.old misaligned 1 4 }
    ensures value { (env : Env) → value_in env pool.new result ≡ needs_none_of (value_in env pool.old word) (value_in env pool.old misaligned) }
    ensures net { Is pool.new result 1 4 }
    ensures scope { (s : Scope) → IsIn s pool.old word → IsIn s pool.old misaligned → IsIn s pool.new result }
    ensures step { Step pool.old pool.new 2 }
{
    let fence = slice(pool, word, 2, 2);
    or(pool, fence, misaligned)
}

/// One bit: 1 where the instruction is done.
#[tactic(auto, unfolding(crate::specs::Machine::done_of))]
pub(crate) fn done(pool: &mut Pool, go: Net, needs_none: Net, owed: Net, answered: Net) -> Net
    requires spare { 3 ≤ pool.old.spare }
    requires go { Is pool.old go 1 4 }
    requires needs_none { Is pool.old needs_none 1 4 }
    requires owed { Is pool.old owed 1 4 }
    requires answered { Is pool.old answered 1 4 }
    ensures value { (env : Env) → value_in env pool.new result
        ≡ done_of (value_in env pool.old go) (value_in env pool.old needs_none) (value_in env pool.old owed) (value_in env pool.old answered) }
    ensures net { Is pool.new result 1 4 }
    ensures scope { (s : Scope) → IsIn s pool.old go → IsIn s pool.old needs_none → IsIn s pool.old owed → IsIn s pool.old answered → IsIn s pool.new result }
    ensures step { Step pool.old pool.new 3 }
{
    let came = and(pool, owed, answered);
    let ends = or(pool, needs_none, came);
    and(pool, go, ends)
}

/// One bit: 1 where the instruction traps once it is done.
#[tactic(auto, unfolding(crate::specs::Machine::trap_of))]
pub(crate) fn trap(pool: &mut Pool, word: Net, misaligned: Net, failed: Net) -> Net
    requires spare { 4 ≤ pool.old.spare }
    requires word { Is pool.old word 32 4 }
    requires misaligned { Is pool.old misaligned 1 4 }
    requires failed { Is pool.old failed 1 4 }
    ensures value { (env : Env) → value_in env pool.new result ≡ trap_of (value_in env pool.old word) (value_in env pool.old misaligned) (value_in env pool.old failed) }
    ensures net { Is pool.new result 1 4 }
    ensures scope { (s : Scope) → IsIn s pool.old word → IsIn s pool.old misaligned → IsIn s pool.old failed → IsIn s pool.new result }
    ensures step { Step pool.old pool.new 4 }
{
    let fence = slice(pool, word, 2, 2);
    let access = not(pool, fence);
    let fault = or(pool, misaligned, failed);
    and(pool, access, fault)
}

/// The cause of a trap, of 32 bits.
#[tactic(auto, unfolding(crate::specs::Machine::cause_of))]
pub(crate) fn cause(pool: &mut Pool, word: Net, misaligned: Net) -> Net
    requires spare { 5 ≤ pool.old.spare }
    requires word { Is pool.old word 32 4 }
    requires misaligned { Is pool.old misaligned 1 4 }
    ensures value { (env : Env) → value_in env pool.new result ≡ cause_of (value_in env pool.old word) (value_in env pool.old misaligned) }
    ensures net { Is pool.new result 32 4 }
    ensures scope { (s : Scope) → IsIn s pool.old word → IsIn s pool.old misaligned → IsIn s pool.new result }
    ensures step { Step pool.old pool.new 5 }
{
    let store = slice(pool, word, 5, 5);
    let aligned = not(pool, misaligned);
    let low = cat(pool, store, aligned);
    let above = lit(pool, 30, 1);
    cat(pool, above, low)
}

/// One bit: 1 where a command begins in the next cycle.
#[tactic(auto, unfolding(crate::specs::Machine::starts_of))]
pub(crate) fn starts(
    pool: &mut Pool,
    go: Net,
    needs_none: Net,
    given: Net,
    owed: Net,
    clear: Net,
) -> Net
    requires spare { 5 ≤ pool.old.spare }
    requires go { Is pool.old go 1 8 }
    requires needs_none { Is pool.old needs_none 1 8 }
    requires given { Is pool.old given 1 8 }
    requires owed { Is pool.old owed 1 8 }
    requires clear { Is pool.old clear 1 8 }
    ensures value { (env : Env) → value_in env pool.new result
        ≡ starts_of (value_in env pool.old go) (value_in env pool.old needs_none) (value_in env pool.old given) (value_in env pool.old owed) (value_in env pool.old clear) }
    ensures net { Is pool.new result 1 8 }
    ensures scope { (s : Scope) → IsIn s pool.old go → IsIn s pool.old needs_none → IsIn s pool.old given → IsIn s pool.old owed → IsIn s pool.old clear
        → IsIn s pool.new result }
    ensures step { Step pool.old pool.new 5 }
{
    let ends = or(pool, needs_none, clear);
    let busy = or(pool, given, owed);
    let stays = or(pool, ends, busy);
    let free = not(pool, stays);
    and(pool, go, free)
}

/// One bit: whether a command is given in the next cycle.
#[tactic(auto, unfolding(crate::specs::Machine::given_of))]
pub(crate) fn given_next(pool: &mut Pool, starts: Net, given: Net, ready: Net) -> Net
    requires spare { 3 ≤ pool.old.spare }
    requires starts { Is pool.old starts 1 8 }
    requires given { Is pool.old given 1 8 }
    requires ready { Is pool.old ready 1 8 }
    ensures value { (env : Env) → value_in env pool.new result ≡ given_of (value_in env pool.old starts) (value_in env pool.old given) (value_in env pool.old ready) }
    ensures net { Is pool.new result 1 8 }
    ensures scope { (s : Scope) → IsIn s pool.old starts → IsIn s pool.old given → IsIn s pool.old ready → IsIn s pool.new result }
    ensures step { Step pool.old pool.new 3 }
{
    let refused = not(pool, ready);
    let stands = and(pool, given, refused);
    or(pool, starts, stands)
}

/// One bit: whether a response is owed in the next cycle.
#[tactic(auto, unfolding(crate::specs::Machine::owed_of))]
pub(crate) fn owed_next(pool: &mut Pool, given: Net, ready: Net, owed: Net, answered: Net) -> Net
    requires spare { 4 ≤ pool.old.spare }
    requires given { Is pool.old given 1 8 }
    requires ready { Is pool.old ready 1 8 }
    requires owed { Is pool.old owed 1 8 }
    requires answered { Is pool.old answered 1 8 }
    ensures value { (env : Env) → value_in env pool.new result
        ≡ owed_of (value_in env pool.old given) (value_in env pool.old ready) (value_in env pool.old owed) (value_in env pool.old answered) }
    ensures net { Is pool.new result 1 8 }
    ensures scope { (s : Scope) → IsIn s pool.old given → IsIn s pool.old ready → IsIn s pool.old owed → IsIn s pool.old answered → IsIn s pool.new result }
    ensures step { Step pool.old pool.new 4 }
{
    let taken = and(pool, given, ready);
    let waits = not(pool, answered);
    let still = and(pool, owed, waits);
    or(pool, taken, still)
}
