ghost use Rattle.std.specs.Prelude.{◌≡◌, ℕ, ◌+◌, ◌-◌, ◌≤◌};
ghost use Rattle.hw_pool.specs.Meaning.{Env};
ghost use Rattle.hw_pool.specs.Scope.{Scope};
ghost use Rattle.hw_gates.specs.Places.{Is, IsIn, Step, value_in};
ghost use Rattle.cache_nets.specs.Machine.{captures_of, ends_of, flawed_of, goes_on_of, keeps_of, last_of, response_of};
ghost use Rattle.cache_nets.specs.Nets.{IsCycle, IsCycleIn, IsFill, IsFillIn};

use crate::parts::place_of;
use crate::shapes::{Cycle, Fill, Sizes};
use hw_expr::Net;
use hw_gates::{and, eq, lit, not, or};
use hw_pool::Pool;

/// One bit: the response comes.
#[tactic(auto, unfolding(crate::specs::Machine::response_of))]
fn response(pool: &mut Pool, owed: Net, answered: Net) -> Net
    requires spare { 1 ≤ pool.old.spare }
    requires owed { Is pool.old owed 1 8 }
    requires answered { Is pool.old answered 1 8 }
    ensures value { (env : Env) → value_in env pool.new result ≡ response_of (value_in env pool.old owed) (value_in env pool.old answered) }
    ensures net { Is pool.new result 1 8 }
    ensures scope { (s : Scope) → IsIn s pool.old owed → IsIn s pool.old answered → IsIn s pool.new result }
    ensures step { Step pool.old pool.new 1 }
{
    and(pool, owed, answered)
}

/// One bit: the word that comes is kept.
#[tactic(auto, unfolding(crate::specs::Machine::keeps_of))]
fn keeps(pool: &mut Pool, owed: Net, answered: Net, dropped: Net) -> Net
    requires spare { 3 ≤ pool.old.spare }
    requires owed { Is pool.old owed 1 8 }
    requires answered { Is pool.old answered 1 8 }
    requires dropped { Is pool.old dropped 1 8 }
    ensures value { (env : Env) → value_in env pool.new result ≡ keeps_of (value_in env pool.old owed) (value_in env pool.old answered) (value_in env pool.old dropped) }
    ensures net { Is pool.new result 1 8 }
    ensures scope { (s : Scope) → IsIn s pool.old owed → IsIn s pool.old answered → IsIn s pool.old dropped → IsIn s pool.new result }
    ensures step { Step pool.old pool.new 3 }
{
    let comes = and(pool, owed, answered);
    let stays = not(pool, dropped);
    and(pool, comes, stays)
}

/// One bit: the word is the last of its line.
#[tactic(auto, unfolding(crate::specs::Machine::last_of))]
fn last(pool: &mut Pool, z: Sizes, place: Net) -> Net
    requires spare { 3 ≤ pool.old.spare }
    requires index { 1 ≤ z.index }
    requires few_lines { z.index ≤ 10 }
    requires place { 1 ≤ z.place }
    requires few_words { z.place ≤ 4 }
    requires place_net { Is pool.old place z.place 0 }
    ensures value { (env : Env) → value_in env pool.new result ≡ last_of z.place (value_in env pool.old place) }
    ensures net { Is pool.new result 1 0 }
    ensures scope { (s : Scope) → IsIn s pool.old place → IsIn s pool.new result }
    ensures step { Step pool.old pool.new 3 }
{
    let zeros = lit(pool, z.place, 0);
    let ones = not(pool, zeros);
    eq(pool, place, ones)
}

/// One bit: the fill goes on with the next word.
#[tactic(auto, unfolding(crate::specs::Machine::goes_on_of))]
fn goes_on(pool: &mut Pool, keeps: Net, last: Net, fence: Net) -> Net
    requires spare { 4 ≤ pool.old.spare }
    requires keeps { Is pool.old keeps 1 8 }
    requires last { Is pool.old last 1 8 }
    requires fence { Is pool.old fence 1 8 }
    ensures value { (env : Env) → value_in env pool.new result ≡ goes_on_of (value_in env pool.old keeps) (value_in env pool.old last) (value_in env pool.old fence) }
    ensures net { Is pool.new result 1 8 }
    ensures scope { (s : Scope) → IsIn s pool.old keeps → IsIn s pool.old last → IsIn s pool.old fence → IsIn s pool.new result }
    ensures step { Step pool.old pool.new 4 }
{
    let more = not(pool, last);
    let unfenced = not(pool, fence);
    let goes = and(pool, more, unfenced);
    and(pool, keeps, goes)
}

/// One bit: the fill ends.
#[tactic(auto, unfolding(crate::specs::Machine::ends_of))]
fn ends(pool: &mut Pool, keeps: Net, last: Net) -> Net
    requires spare { 1 ≤ pool.old.spare }
    requires keeps { Is pool.old keeps 1 8 }
    requires last { Is pool.old last 1 8 }
    ensures value { (env : Env) → value_in env pool.new result ≡ ends_of (value_in env pool.old keeps) (value_in env pool.old last) }
    ensures net { Is pool.new result 1 8 }
    ensures scope { (s : Scope) → IsIn s pool.old keeps → IsIn s pool.old last → IsIn s pool.new result }
    ensures step { Step pool.old pool.new 1 }
{
    and(pool, keeps, last)
}

/// One bit: a word of the fill was an error.
#[tactic(auto, unfolding(crate::specs::Machine::flawed_of))]
fn flawed(pool: &mut Pool, bad: Net, failed: Net) -> Net
    requires spare { 1 ≤ pool.old.spare }
    requires bad { Is pool.old bad 1 8 }
    requires failed { Is pool.old failed 1 8 }
    ensures value { (env : Env) → value_in env pool.new result ≡ flawed_of (value_in env pool.old bad) (value_in env pool.old failed) }
    ensures net { Is pool.new result 1 8 }
    ensures scope { (s : Scope) → IsIn s pool.old bad → IsIn s pool.old failed → IsIn s pool.new result }
    ensures step { Step pool.old pool.new 1 }
{
    or(pool, bad, failed)
}

/// One bit: the word of the pc that is looked up comes.
#[tactic(auto, unfolding(crate::specs::Machine::captures_of))]
fn captures(pool: &mut Pool, z: Sizes, keeps: Net, at: Net, pc: Net) -> Net
    requires spare { 3 ≤ pool.old.spare }
    requires index { 1 ≤ z.index }
    requires few_lines { z.index ≤ 10 }
    requires place { 1 ≤ z.place }
    requires few_words { z.place ≤ 4 }
    requires keeps { Is pool.old keeps 1 8 }
    requires at { Is pool.old at z.place 0 }
    requires pc { Is pool.old pc 32 0 }
    ensures value { (env : Env) → value_in env pool.new result ≡ captures_of z.place (value_in env pool.old keeps) (value_in env pool.old at) (value_in env pool.old pc) }
    ensures net { Is pool.new result 1 8 }
    ensures scope { (s : Scope) → IsIn s pool.old keeps → IsIn s pool.old at → IsIn s pool.old pc → IsIn s pool.new result }
    ensures step { Step pool.old pool.new 3 }
{
    let within = place_of(pool, z, pc);
    let same = eq(pool, at, within);
    and(pool, keeps, same)
}

/// What becomes of the fill.
#[tactic(auto, using(hw_gates::proofs::Plain::plain))]
pub(crate) fn fill_nets(pool: &mut Pool, z: Sizes, c: Cycle) -> Fill
    requires spare { 16 ≤ pool.old.spare }
    requires index { 1 ≤ z.index }
    requires few_lines { z.index ≤ 10 }
    requires place { 1 ≤ z.place }
    requires few_words { z.place ≤ 4 }
    requires cycle { IsCycle z pool.old c }
    ensures response { (env : Env) → value_in env pool.new result.response ≡ response_of (value_in env pool.old c.held.owed) (value_in env pool.old c.coming.answered) }
    ensures keeps { (env : Env) → value_in env pool.new result.keeps ≡ keeps_of (value_in env pool.old c.held.owed) (value_in env pool.old c.coming.answered) (value_in env pool.old c.held.dropped) }
    ensures goes_on { (env : Env) → value_in env pool.new result.goes_on
        ≡ goes_on_of (keeps_of (value_in env pool.old c.held.owed) (value_in env pool.old c.coming.answered) (value_in env pool.old c.held.dropped)) (last_of z.place (value_in env pool.old c.held.place)) (value_in env pool.old c.coming.fence) }
    ensures ends { (env : Env) → value_in env pool.new result.ends
        ≡ ends_of (keeps_of (value_in env pool.old c.held.owed) (value_in env pool.old c.coming.answered) (value_in env pool.old c.held.dropped)) (last_of z.place (value_in env pool.old c.held.place)) }
    ensures flawed { (env : Env) → value_in env pool.new result.flawed ≡ flawed_of (value_in env pool.old c.held.bad) (value_in env pool.old c.coming.failed) }
    ensures captures { (env : Env) → value_in env pool.new result.captures
        ≡ captures_of z.place (keeps_of (value_in env pool.old c.held.owed) (value_in env pool.old c.coming.answered) (value_in env pool.old c.held.dropped)) (value_in env pool.old c.held.place) (value_in env pool.old c.held.pc) }
    ensures nets { IsFill pool.new result }
    ensures scope { (s : Scope) → IsCycleIn s pool.old c → IsFillIn s pool.new result }
    ensures step { Step pool.old pool.new 16 }
{
    let response = response(pool, c.held.owed, c.coming.answered);
    let keeps = keeps(pool, c.held.owed, c.coming.answered, c.held.dropped);
    let last = last(pool, z, c.held.place);
    let goes_on = goes_on(pool, keeps, last, c.coming.fence);
    let ends = ends(pool, keeps, last);
    let flawed = flawed(pool, c.held.bad, c.coming.failed);
    let captures = captures(pool, z, keeps, c.held.place, c.held.pc);
    Fill {
        response,
        keeps,
        goes_on,
        ends,
        flawed,
        captures,
    }
}
