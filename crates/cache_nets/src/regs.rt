ghost use Rattle.std.specs.Prelude.{◌≡◌, ℕ, ◌+◌, ◌-◌, ◌≤◌};
ghost use Rattle.hw_pool.specs.Meaning.{Env};
ghost use Rattle.hw_pool.specs.Scope.{Scope};
ghost use Rattle.hw_gates.specs.Places.{Is, IsIn, Step, value_in};
ghost use Rattle.cache_nets.specs.Machine.{bad_of, captured_of, dropped_of, full_of, given_of, line_of, owed_of, pc_of, place_of, walk_of, wanted_of};

use crate::parts;
use crate::shapes::Sizes;
use hw_expr::Net;
use hw_gates::{add, and, lit, mux, not, or};
use hw_pool::Pool;

/// The pc that is looked up next, of 32 bits; `guess` is the pc behind the item that is looked up.
#[tactic(auto, unfolding(crate::specs::Machine::pc_of))]
pub(crate) fn pc_next(
    pool: &mut Pool,
    redirect: Net,
    redirect_pc: Net,
    moves: Net,
    guess: Net,
    pc: Net,
) -> Net
    requires spare { 2 ≤ pool.old.spare }
    requires redirect { Is pool.old redirect 1 8 }
    requires redirect_pc { Is pool.old redirect_pc 32 8 }
    requires moves { Is pool.old moves 1 8 }
    requires guess { Is pool.old guess 32 8 }
    requires pc { Is pool.old pc 32 8 }
    ensures value { (env : Env) → value_in env pool.new result ≡ pc_of (value_in env pool.old redirect) (value_in env pool.old redirect_pc) (value_in env pool.old moves) (value_in env pool.old guess) (value_in env pool.old pc) }
    ensures net { Is pool.new result 32 8 }
    ensures scope { (s : Scope) → IsIn s pool.old redirect → IsIn s pool.old redirect_pc → IsIn s pool.old moves → IsIn s pool.old guess → IsIn s pool.old pc → IsIn s pool.new result }
    ensures step { Step pool.old pool.new 2 }
{
    let follows = mux(pool, moves, guess, pc);
    mux(pool, redirect, redirect_pc, follows)
}

/// How many tags are cleared next.
#[tactic(auto, unfolding(crate::specs::Machine::walk_of))]
pub(crate) fn walk_next(pool: &mut Pool, z: Sizes, fence: Net, walking: Net, walk: Net) -> Net
    requires spare { 5 ≤ pool.old.spare }
    requires index { 1 ≤ z.index }
    requires few_lines { z.index ≤ 10 }
    requires place { 1 ≤ z.place }
    requires few_words { z.place ≤ 4 }
    requires fence { Is pool.old fence 1 8 }
    requires walking { Is pool.old walking 1 8 }
    requires walk { Is pool.old walk (z.index + 1) 8 }
    ensures value { (env : Env) → value_in env pool.new result ≡ walk_of z.index (value_in env pool.old fence) (value_in env pool.old walking) (value_in env pool.old walk) }
    ensures net { Is pool.new result (z.index + 1) 8 }
    ensures scope { (s : Scope) → IsIn s pool.old fence → IsIn s pool.old walking → IsIn s pool.old walk → IsIn s pool.new result }
    ensures step { Step pool.old pool.new 5 }
{
    let one = lit(pool, z.index + 1, 1);
    let more = add(pool, walk, one);
    let walked = mux(pool, walking, more, walk);
    let none = lit(pool, z.index + 1, 0);
    mux(pool, fence, none, walked)
}

/// One bit: a command is given next.
#[tactic(auto, unfolding(crate::specs::Machine::given_of))]
pub(crate) fn given_next(pool: &mut Pool, misses: Net, goes_on: Net, given: Net, ready: Net) -> Net
    requires spare { 4 ≤ pool.old.spare }
    requires misses { Is pool.old misses 1 8 }
    requires goes_on { Is pool.old goes_on 1 8 }
    requires given { Is pool.old given 1 8 }
    requires ready { Is pool.old ready 1 8 }
    ensures value { (env : Env) → value_in env pool.new result ≡ given_of (value_in env pool.old misses) (value_in env pool.old goes_on) (value_in env pool.old given) (value_in env pool.old ready) }
    ensures net { Is pool.new result 1 8 }
    ensures scope { (s : Scope) → IsIn s pool.old misses → IsIn s pool.old goes_on → IsIn s pool.old given → IsIn s pool.old ready → IsIn s pool.new result }
    ensures step { Step pool.old pool.new 4 }
{
    let waits = not(pool, ready);
    let old = and(pool, given, waits);
    let further = or(pool, goes_on, old);
    or(pool, misses, further)
}

/// One bit: a response is owed next.
#[tactic(auto, unfolding(crate::specs::Machine::owed_of))]
pub(crate) fn owed_next(pool: &mut Pool, given: Net, ready: Net, owed: Net, response: Net) -> Net
    requires spare { 4 ≤ pool.old.spare }
    requires given { Is pool.old given 1 8 }
    requires ready { Is pool.old ready 1 8 }
    requires owed { Is pool.old owed 1 8 }
    requires response { Is pool.old response 1 8 }
    ensures value { (env : Env) → value_in env pool.new result ≡ owed_of (value_in env pool.old given) (value_in env pool.old ready) (value_in env pool.old owed) (value_in env pool.old response) }
    ensures net { Is pool.new result 1 8 }
    ensures scope { (s : Scope) → IsIn s pool.old given → IsIn s pool.old ready → IsIn s pool.old owed → IsIn s pool.old response → IsIn s pool.new result }
    ensures step { Step pool.old pool.new 4 }
{
    let accepted = and(pool, given, ready);
    let waits = not(pool, response);
    let old = and(pool, owed, waits);
    or(pool, accepted, old)
}

/// One bit: the word that will come is dropped.
#[tactic(auto, unfolding(crate::specs::Machine::dropped_of))]
pub(crate) fn dropped_next(
    pool: &mut Pool,
    fence: Net,
    dropped: Net,
    given: Net,
    owed: Net,
    response: Net,
) -> Net
    requires spare { 5 ≤ pool.old.spare }
    requires fence { Is pool.old fence 1 8 }
    requires dropped { Is pool.old dropped 1 8 }
    requires given { Is pool.old given 1 8 }
    requires owed { Is pool.old owed 1 8 }
    requires response { Is pool.old response 1 8 }
    ensures value { (env : Env) → value_in env pool.new result ≡ dropped_of (value_in env pool.old fence) (value_in env pool.old dropped) (value_in env pool.old given) (value_in env pool.old owed) (value_in env pool.old response) }
    ensures net { Is pool.new result 1 8 }
    ensures scope { (s : Scope) → IsIn s pool.old fence → IsIn s pool.old dropped → IsIn s pool.old given → IsIn s pool.old owed → IsIn s pool.old response → IsIn s pool.new result }
    ensures step { Step pool.old pool.new 5 }
{
    let drops = or(pool, fence, dropped);
    let waits = not(pool, response);
    let old = and(pool, owed, waits);
    let works = or(pool, given, old);
    and(pool, drops, works)
}

/// The line that is read next.
#[tactic(auto, unfolding(crate::specs::Machine::line_of))]
pub(crate) fn line_next(pool: &mut Pool, z: Sizes, misses: Net, pc: Net, line: Net) -> Net
    requires spare { 2 ≤ pool.old.spare }
    requires index { 1 ≤ z.index }
    requires few_lines { z.index ≤ 10 }
    requires place { 1 ≤ z.place }
    requires few_words { z.place ≤ 4 }
    requires misses { Is pool.old misses 1 8 }
    requires pc { Is pool.old pc 32 0 }
    requires line { Is pool.old line (30 - z.place) 8 }
    ensures value { (env : Env) → value_in env pool.new result ≡ line_of z.place (value_in env pool.old misses) (value_in env pool.old pc) (value_in env pool.old line) }
    ensures net { Is pool.new result (30 - z.place) 8 }
    ensures scope { (s : Scope) → IsIn s pool.old misses → IsIn s pool.old pc → IsIn s pool.old line → IsIn s pool.new result }
    ensures step { Step pool.old pool.new 2 }
{
    let new = parts::line_of(pool, z, pc);
    mux(pool, misses, new, line)
}

/// The place of the word that is read next.
#[tactic(auto, unfolding(crate::specs::Machine::place_of))]
pub(crate) fn place_next(pool: &mut Pool, z: Sizes, misses: Net, goes_on: Net, at: Net) -> Net
    requires spare { 5 ≤ pool.old.spare }
    requires index { 1 ≤ z.index }
    requires few_lines { z.index ≤ 10 }
    requires place { 1 ≤ z.place }
    requires few_words { z.place ≤ 4 }
    requires misses { Is pool.old misses 1 8 }
    requires goes_on { Is pool.old goes_on 1 8 }
    requires at { Is pool.old at z.place 8 }
    ensures value { (env : Env) → value_in env pool.new result ≡ place_of z.place (value_in env pool.old misses) (value_in env pool.old goes_on) (value_in env pool.old at) }
    ensures net { Is pool.new result z.place 8 }
    ensures scope { (s : Scope) → IsIn s pool.old misses → IsIn s pool.old goes_on → IsIn s pool.old at → IsIn s pool.new result }
    ensures step { Step pool.old pool.new 5 }
{
    let one = lit(pool, z.place, 1);
    let more = add(pool, at, one);
    let further = mux(pool, goes_on, more, at);
    let first = lit(pool, z.place, 0);
    mux(pool, misses, first, further)
}

/// One bit: a word of the fill was an error.
#[tactic(auto, unfolding(crate::specs::Machine::bad_of))]
pub(crate) fn bad_next(pool: &mut Pool, misses: Net, keeps: Net, flawed: Net, bad: Net) -> Net
    requires spare { 3 ≤ pool.old.spare }
    requires misses { Is pool.old misses 1 8 }
    requires keeps { Is pool.old keeps 1 8 }
    requires flawed { Is pool.old flawed 1 8 }
    requires bad { Is pool.old bad 1 8 }
    ensures value { (env : Env) → value_in env pool.new result ≡ bad_of (value_in env pool.old misses) (value_in env pool.old keeps) (value_in env pool.old flawed) (value_in env pool.old bad) }
    ensures net { Is pool.new result 1 8 }
    ensures scope { (s : Scope) → IsIn s pool.old misses → IsIn s pool.old keeps → IsIn s pool.old flawed → IsIn s pool.old bad → IsIn s pool.new result }
    ensures step { Step pool.old pool.new 3 }
{
    let old = not(pool, misses);
    let some = mux(pool, keeps, flawed, bad);
    and(pool, old, some)
}

/// One bit: the pc that is looked up waits for the line that is read.
#[tactic(auto, unfolding(crate::specs::Machine::wanted_of))]
pub(crate) fn wanted_next(pool: &mut Pool, misses: Net, wanted: Net, redirect: Net) -> Net
    requires spare { 3 ≤ pool.old.spare }
    requires misses { Is pool.old misses 1 8 }
    requires wanted { Is pool.old wanted 1 8 }
    requires redirect { Is pool.old redirect 1 8 }
    ensures value { (env : Env) → value_in env pool.new result ≡ wanted_of (value_in env pool.old misses) (value_in env pool.old wanted) (value_in env pool.old redirect) }
    ensures net { Is pool.new result 1 8 }
    ensures scope { (s : Scope) → IsIn s pool.old misses → IsIn s pool.old wanted → IsIn s pool.old redirect → IsIn s pool.new result }
    ensures step { Step pool.old pool.new 3 }
{
    let waits = or(pool, misses, wanted);
    let straight = not(pool, redirect);
    and(pool, waits, straight)
}

/// One bit: the word of the pc that is looked up is there as it came.
#[tactic(auto, unfolding(crate::specs::Machine::captured_of))]
pub(crate) fn captured_next(
    pool: &mut Pool,
    ends: Net,
    wanted: Net,
    flawed: Net,
    captured: Net,
    moves: Net,
    redirect: Net,
) -> Net
    requires spare { 7 ≤ pool.old.spare }
    requires ends { Is pool.old ends 1 8 }
    requires wanted { Is pool.old wanted 1 8 }
    requires flawed { Is pool.old flawed 1 8 }
    requires captured { Is pool.old captured 1 8 }
    requires moves { Is pool.old moves 1 8 }
    requires redirect { Is pool.old redirect 1 8 }
    ensures value { (env : Env) → value_in env pool.new result ≡ captured_of (value_in env pool.old ends) (value_in env pool.old wanted) (value_in env pool.old flawed) (value_in env pool.old captured) (value_in env pool.old moves) (value_in env pool.old redirect) }
    ensures net { Is pool.new result 1 8 }
    ensures scope { (s : Scope) → IsIn s pool.old ends → IsIn s pool.old wanted → IsIn s pool.old flawed → IsIn s pool.old captured → IsIn s pool.old moves → IsIn s pool.old redirect → IsIn s pool.new result }
    ensures step { Step pool.old pool.new 7 }
{
    let lost = and(pool, wanted, flawed);
    let new = and(pool, ends, lost);
    let waits = not(pool, moves);
    let old = and(pool, captured, waits);
    let some = or(pool, new, old);
    let straight = not(pool, redirect);
    and(pool, some, straight)
}

/// One bit: an item is offered next.
#[tactic(auto, unfolding(crate::specs::Machine::full_of))]
pub(crate) fn full_next(pool: &mut Pool, redirect: Net, moves: Net, full: Net, take: Net) -> Net
    requires spare { 5 ≤ pool.old.spare }
    requires redirect { Is pool.old redirect 1 8 }
    requires moves { Is pool.old moves 1 8 }
    requires full { Is pool.old full 1 8 }
    requires take { Is pool.old take 1 8 }
    ensures value { (env : Env) → value_in env pool.new result ≡ full_of (value_in env pool.old redirect) (value_in env pool.old moves) (value_in env pool.old full) (value_in env pool.old take) }
    ensures net { Is pool.new result 1 8 }
    ensures scope { (s : Scope) → IsIn s pool.old redirect → IsIn s pool.old moves → IsIn s pool.old full → IsIn s pool.old take → IsIn s pool.new result }
    ensures step { Step pool.old pool.new 5 }
{
    let waits = not(pool, take);
    let old = and(pool, full, waits);
    let some = or(pool, moves, old);
    let straight = not(pool, redirect);
    and(pool, straight, some)
}
