ghost use Rattle.std.specs.Prelude.{◌≡◌, ℕ, ◌≤◌};
ghost use Rattle.hw_pool.specs.Meaning.{Env};
ghost use Rattle.hw_pool.specs.Scope.{Scope};
ghost use Rattle.hw_gates.specs.Places.{Is, IsIn, Step, value_in};
ghost use Rattle.isa_model.specs.Effects.{behind};
ghost use Rattle.plug_fetch.specs.Machine.{address_of, dropped_of, fills_of, given_of, held_of, idle_of, kept_of, moved_of, owed_of, pc_of, put_of, response_of};

use hw_expr::Net;
use hw_gates::{add, and, lit, mux, not, or};
use hw_pool::Pool;

/// What a cycle does on the bus, one bit each.
#[derive(Clone, Copy, Debug)]
pub(crate) struct CycleBits {
    /// The response comes.
    pub(crate) response: Net,
    /// No command is at work, or the response of the one at work comes.
    pub(crate) idle: Net,
    /// The word that comes is kept.
    pub(crate) kept: Net,
}

/// What becomes of a place, one bit each.
#[derive(Clone, Copy, Debug)]
pub(crate) struct PlaceBits {
    /// It is held after a take.
    pub(crate) moved: Net,
    /// The word that comes fills it.
    pub(crate) fills: Net,
    /// It is held next.
    pub(crate) held: Net,
}

/// What a cycle does on the bus: the response comes, the bus is idle, the word is kept.
#[tactic(auto, unfolding(crate::specs::Machine::response_of, crate::specs::Machine::idle_of, crate::specs::Machine::kept_of))]
pub(crate) fn cycle_bits(
    pool: &mut Pool,
    given: Net,
    owed: Net,
    dropped: Net,
    answered: Net,
) -> CycleBits
    requires spare { 6 ≤ pool.old.spare }
    requires given { Is pool.old given 1 8 }
    requires owed { Is pool.old owed 1 8 }
    requires dropped { Is pool.old dropped 1 8 }
    requires answered { Is pool.old answered 1 8 }
    ensures response { (env : Env) → value_in env pool.new result.response ≡ response_of (value_in env pool.old owed) (value_in env pool.old answered) }
    ensures idle { (env : Env) → value_in env pool.new result.idle
        ≡ idle_of (value_in env pool.old given) (value_in env pool.old owed) (response_of (value_in env pool.old owed) (value_in env pool.old answered)) }
    ensures kept { (env : Env) → value_in env pool.new result.kept ≡ kept_of (response_of (value_in env pool.old owed) (value_in env pool.old answered)) (value_in env pool.old dropped) }
    ensures nets { Is pool.new result.response 1 8 × Is pool.new result.idle 1 8 × Is pool.new result.kept 1 8 }
    ensures scope { (s : Scope) → IsIn s pool.old given → IsIn s pool.old owed → IsIn s pool.old dropped → IsIn s pool.old answered
        → IsIn s pool.new result.response × IsIn s pool.new result.idle × IsIn s pool.new result.kept }
    ensures step { Step pool.old pool.new 6 }
{
    let response = and(pool, owed, answered);
    let busy = or(pool, given, owed);
    let free = not(pool, busy);
    let idle = or(pool, free, response);
    let stays = not(pool, dropped);
    let kept = and(pool, response, stays);
    CycleBits {
        response,
        idle,
        kept,
    }
}

/// What becomes of a place: `own` is 1 where it is held, `next` where the next one is, and `before` is 1 where the one before it is
/// held after a take.
#[tactic(auto, unfolding(crate::specs::Machine::moved_of, crate::specs::Machine::fills_of, crate::specs::Machine::held_of))]
pub(crate) fn place_bits(
    pool: &mut Pool,
    take: Net,
    redirect: Net,
    kept: Net,
    before: Net,
    own: Net,
    next: Net,
) -> PlaceBits
    requires spare { 7 ≤ pool.old.spare }
    requires take { Is pool.old take 1 8 }
    requires redirect { Is pool.old redirect 1 8 }
    requires kept { Is pool.old kept 1 8 }
    requires before { Is pool.old before 1 8 }
    requires own { Is pool.old own 1 8 }
    requires next { Is pool.old next 1 8 }
    ensures moved { (env : Env) → value_in env pool.new result.moved ≡ moved_of (value_in env pool.old take) (value_in env pool.old own) (value_in env pool.old next) }
    ensures fills { (env : Env) → value_in env pool.new result.fills
        ≡ fills_of (value_in env pool.old kept) (moved_of (value_in env pool.old take) (value_in env pool.old own) (value_in env pool.old next)) (value_in env pool.old before) }
    ensures held { (env : Env) → value_in env pool.new result.held
        ≡ held_of (value_in env pool.old redirect) (moved_of (value_in env pool.old take) (value_in env pool.old own) (value_in env pool.old next))
        (fills_of (value_in env pool.old kept) (moved_of (value_in env pool.old take) (value_in env pool.old own) (value_in env pool.old next)) (value_in env pool.old before)) }
    ensures nets { Is pool.new result.moved 1 8 × Is pool.new result.fills 1 8 × Is pool.new result.held 1 8 }
    ensures scope { (s : Scope) → IsIn s pool.old take → IsIn s pool.old redirect → IsIn s pool.old kept → IsIn s pool.old before → IsIn s pool.old own → IsIn s pool.old next
        → IsIn s pool.new result.moved × IsIn s pool.new result.fills × IsIn s pool.new result.held }
    ensures step { Step pool.old pool.new 7 }
{
    let moved = mux(pool, take, next, own);
    let empty = not(pool, moved);
    let first = and(pool, empty, before);
    let fills = and(pool, kept, first);
    let stays = not(pool, redirect);
    let some = or(pool, moved, fills);
    let held = and(pool, stays, some);
    PlaceBits { moved, fills, held }
}

/// What a place holds next, of a pc, a word or an error: what comes, what the next place holds, or its own.
#[tactic(auto, unfolding(crate::specs::Machine::put_of))]
pub(crate) fn put(pool: &mut Pool, fills: Net, came: Net, take: Net, next: Net, own: Net) -> Net
    requires spare { 2 ≤ pool.old.spare }
    requires fills { Is pool.old fills 1 8 }
    requires take { Is pool.old take 1 8 }
    requires came { Is pool.old came own.width 8 }
    requires next { Is pool.old next own.width 8 }
    requires own { Is pool.old own own.width 8 }
    ensures value { (env : Env) → value_in env pool.new result
        ≡ put_of (value_in env pool.old fills) (value_in env pool.old came) (value_in env pool.old take) (value_in env pool.old next) (value_in env pool.old own) }
    ensures net { Is pool.new result own.width 8 }
    ensures scope { (s : Scope) → IsIn s pool.old fills → IsIn s pool.old came → IsIn s pool.old take → IsIn s pool.old next → IsIn s pool.old own → IsIn s pool.new result }
    ensures step { Step pool.old pool.new 2 }
{
    let stays = mux(pool, take, next, own);
    mux(pool, fills, came, stays)
}

/// One bit: a command is given next. `last` is 1 where the last place will be held.
#[tactic(auto, unfolding(crate::specs::Machine::given_of))]
pub(crate) fn given_next(pool: &mut Pool, idle: Net, last: Net, given: Net, ready: Net) -> Net
    requires spare { 5 ≤ pool.old.spare }
    requires idle { Is pool.old idle 1 8 }
    requires last { Is pool.old last 1 8 }
    requires given { Is pool.old given 1 8 }
    requires ready { Is pool.old ready 1 8 }
    ensures value { (env : Env) → value_in env pool.new result
        ≡ given_of (value_in env pool.old idle) (value_in env pool.old last) (value_in env pool.old given) (value_in env pool.old ready) }
    ensures net { Is pool.new result 1 8 }
    ensures scope { (s : Scope) → IsIn s pool.old idle → IsIn s pool.old last → IsIn s pool.old given → IsIn s pool.old ready → IsIn s pool.new result }
    ensures step { Step pool.old pool.new 5 }
{
    let room = not(pool, last);
    let new = and(pool, idle, room);
    let waits = not(pool, ready);
    let old = and(pool, given, waits);
    or(pool, new, old)
}

/// One bit: a response is owed next.
#[tactic(auto, unfolding(crate::specs::Machine::owed_of))]
pub(crate) fn owed_next(pool: &mut Pool, given: Net, ready: Net, owed: Net, response: Net) -> Net
    requires spare { 4 ≤ pool.old.spare }
    requires given { Is pool.old given 1 8 }
    requires ready { Is pool.old ready 1 8 }
    requires owed { Is pool.old owed 1 8 }
    requires response { Is pool.old response 1 8 }
    ensures value { (env : Env) → value_in env pool.new result
        ≡ owed_of (value_in env pool.old given) (value_in env pool.old ready) (value_in env pool.old owed) (value_in env pool.old response) }
    ensures net { Is pool.new result 1 8 }
    ensures scope { (s : Scope) → IsIn s pool.old given → IsIn s pool.old ready → IsIn s pool.old owed → IsIn s pool.old response → IsIn s pool.new result }
    ensures step { Step pool.old pool.new 4 }
{
    let accepted = and(pool, given, ready);
    let waits = not(pool, response);
    let old = and(pool, owed, waits);
    or(pool, accepted, old)
}

/// One bit: the word that will come is dropped.
#[tactic(auto, unfolding(crate::specs::Machine::dropped_of))]
pub(crate) fn dropped_next(pool: &mut Pool, redirect: Net, dropped: Net, idle: Net) -> Net
    requires spare { 3 ≤ pool.old.spare }
    requires redirect { Is pool.old redirect 1 8 }
    requires dropped { Is pool.old dropped 1 8 }
    requires idle { Is pool.old idle 1 8 }
    ensures value { (env : Env) → value_in env pool.new result
        ≡ dropped_of (value_in env pool.old redirect) (value_in env pool.old dropped) (value_in env pool.old idle) }
    ensures net { Is pool.new result 1 8 }
    ensures scope { (s : Scope) → IsIn s pool.old redirect → IsIn s pool.old dropped → IsIn s pool.old idle → IsIn s pool.new result }
    ensures step { Step pool.old pool.new 3 }
{
    let some = or(pool, redirect, dropped);
    let busy = not(pool, idle);
    and(pool, some, busy)
}

/// The pc to be read next, of 32 bits; `guess` is the pc behind the word that comes.
#[tactic(auto, unfolding(crate::specs::Machine::pc_of))]
pub(crate) fn pc_next(
    pool: &mut Pool,
    redirect: Net,
    redirect_pc: Net,
    kept: Net,
    guess: Net,
    next_pc: Net,
) -> Net
    requires spare { 2 ≤ pool.old.spare }
    requires redirect { Is pool.old redirect 1 8 }
    requires redirect_pc { Is pool.old redirect_pc 32 8 }
    requires kept { Is pool.old kept 1 8 }
    requires guess { Is pool.old guess 32 8 }
    requires next_pc { Is pool.old next_pc 32 8 }
    ensures value { (env : Env) → value_in env pool.new result
        ≡ pc_of (value_in env pool.old redirect) (value_in env pool.old redirect_pc) (value_in env pool.old kept) (value_in env pool.old guess) (value_in env pool.old next_pc) }
    ensures net { Is pool.new result 32 8 }
    ensures scope { (s : Scope) → IsIn s pool.old redirect → IsIn s pool.old redirect_pc → IsIn s pool.old kept → IsIn s pool.old guess → IsIn s pool.old next_pc → IsIn s pool.new result }
    ensures step { Step pool.old pool.new 2 }
{
    let follows = mux(pool, kept, guess, next_pc);
    mux(pool, redirect, redirect_pc, follows)
}

/// The address of the command, of 32 bits, also of the next one while there is none.
#[tactic(auto, unfolding(crate::specs::Machine::address_of))]
pub(crate) fn address_next(pool: &mut Pool, idle: Net, pc: Net, address: Net) -> Net
    requires spare { 1 ≤ pool.old.spare }
    requires idle { Is pool.old idle 1 8 }
    requires pc { Is pool.old pc 32 8 }
    requires address { Is pool.old address 32 8 }
    ensures value { (env : Env) → value_in env pool.new result
        ≡ address_of (value_in env pool.old idle) (value_in env pool.old pc) (value_in env pool.old address) }
    ensures net { Is pool.new result 32 8 }
    ensures scope { (s : Scope) → IsIn s pool.old idle → IsIn s pool.old pc → IsIn s pool.old address → IsIn s pool.new result }
    ensures step { Step pool.old pool.new 1 }
{
    mux(pool, idle, pc, address)
}

/// The pc of the next word, of 32 bits.
pub(crate) fn pc_behind(pool: &mut Pool, pc: Net) -> Net
    requires spare { 2 ≤ pool.old.spare }
    requires pc { Is pool.old pc 32 8 }
    ensures value { (env : Env) → value_in env pool.new result ≡ behind (value_in env pool.old pc) }
    ensures net { Is pool.new result 32 8 }
    ensures scope { (s : Scope) → IsIn s pool.old pc → IsIn s pool.new result }
    ensures step { Step pool.old pool.new 2 }
{
    let four = lit(pool, 32, 4);
    add(pool, pc, four)
}
