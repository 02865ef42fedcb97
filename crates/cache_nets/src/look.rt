ghost use Rattle.std.specs.Prelude.{◌≡◌, ℕ, ◌+◌, ◌-◌, ◌≤◌, bit_and};
ghost use Rattle.hw_pool.specs.Meaning.{Env};
ghost use Rattle.hw_pool.specs.Scope.{Scope};
ghost use Rattle.hw_gates.specs.Places.{Is, IsIn, Step, value_in};
ghost use Rattle.core_words.specs.Values.{choose};
ghost use Rattle.cache_nets.specs.Machine.{hit_of, looks_of, misses_of, moves_of, room_of, walking_of};
ghost use Rattle.cache_nets.specs.Nets.{IsCycle, IsCycleIn, IsSearch, IsSearchIn};

use crate::parts::{hit, walking};
use crate::shapes::{Cycle, Search, Sizes};
use hw_expr::Net;
use hw_gates::{and, mux, not, or};
use hw_pool::Pool;

/// One bit: nothing is at work, so that the pc is looked up.
#[tactic(auto, unfolding(crate::specs::Machine::looks_of))]
fn looks(pool: &mut Pool, given: Net, owed: Net, walking: Net) -> Net
    requires spare { 3 ≤ pool.old.spare }
    requires given { Is pool.old given 1 8 }
    requires owed { Is pool.old owed 1 8 }
    requires walking { Is pool.old walking 1 8 }
    ensures value { (env : Env) → value_in env pool.new result ≡ looks_of (value_in env pool.old given) (value_in env pool.old owed) (value_in env pool.old walking) }
    ensures net { Is pool.new result 1 8 }
    ensures scope { (s : Scope) → IsIn s pool.old given → IsIn s pool.old owed → IsIn s pool.old walking → IsIn s pool.new result }
    ensures step { Step pool.old pool.new 3 }
{
    let busy = or(pool, given, owed);
    let taken = or(pool, busy, walking);
    not(pool, taken)
}

/// One bit: a fill begins.
#[tactic(auto, unfolding(crate::specs::Machine::misses_of))]
fn misses(pool: &mut Pool, looks: Net, captured: Net, hit: Net, redirect: Net) -> Net
    requires spare { 5 ≤ pool.old.spare }
    requires looks { Is pool.old looks 1 8 }
    requires captured { Is pool.old captured 1 8 }
    requires hit { Is pool.old hit 1 8 }
    requires redirect { Is pool.old redirect 1 8 }
    ensures value { (env : Env) → value_in env pool.new result ≡ misses_of (value_in env pool.old looks) (value_in env pool.old captured) (value_in env pool.old hit) (value_in env pool.old redirect) }
    ensures net { Is pool.new result 1 8 }
    ensures scope { (s : Scope) → IsIn s pool.old looks → IsIn s pool.old captured → IsIn s pool.old hit → IsIn s pool.old redirect → IsIn s pool.new result }
    ensures step { Step pool.old pool.new 5 }
{
    let found = or(pool, captured, hit);
    let none = not(pool, found);
    let straight = not(pool, redirect);
    let begins = and(pool, none, straight);
    and(pool, looks, begins)
}

/// One bit: there is room for an item.
#[tactic(auto, unfolding(crate::specs::Machine::room_of))]
fn room(pool: &mut Pool, full: Net, take: Net) -> Net
    requires spare { 2 ≤ pool.old.spare }
    requires full { Is pool.old full 1 8 }
    requires take { Is pool.old take 1 8 }
    ensures value { (env : Env) → value_in env pool.new result ≡ room_of (value_in env pool.old full) (value_in env pool.old take) }
    ensures net { Is pool.new result 1 8 }
    ensures scope { (s : Scope) → IsIn s pool.old full → IsIn s pool.old take → IsIn s pool.new result }
    ensures step { Step pool.old pool.new 2 }
{
    let empty = not(pool, full);
    or(pool, empty, take)
}

/// One bit: the item that is looked up is there, and moves to where there is room.
#[tactic(auto, unfolding(crate::specs::Machine::moves_of))]
fn moves(pool: &mut Pool, looks: Net, captured: Net, hit: Net, room: Net) -> Net
    requires spare { 3 ≤ pool.old.spare }
    requires looks { Is pool.old looks 1 8 }
    requires captured { Is pool.old captured 1 8 }
    requires hit { Is pool.old hit 1 8 }
    requires room { Is pool.old room 1 8 }
    ensures value { (env : Env) → value_in env pool.new result ≡ moves_of (value_in env pool.old looks) (value_in env pool.old captured) (value_in env pool.old hit) (value_in env pool.old room) }
    ensures net { Is pool.new result 1 8 }
    ensures scope { (s : Scope) → IsIn s pool.old looks → IsIn s pool.old captured → IsIn s pool.old hit → IsIn s pool.old room → IsIn s pool.new result }
    ensures step { Step pool.old pool.new 3 }
{
    let found = or(pool, captured, hit);
    let finds = and(pool, looks, found);
    and(pool, finds, room)
}

/// The search for the pc.
#[tactic(auto, using(hw_gates::proofs::Plain::plain))]
pub(crate) fn search_nets(pool: &mut Pool, z: Sizes, c: Cycle) -> Search
    requires spare { 21 ≤ pool.old.spare }
    requires index { 1 ≤ z.index }
    requires few_lines { z.index ≤ 10 }
    requires place { 1 ≤ z.place }
    requires few_words { z.place ≤ 4 }
    requires cycle { IsCycle z pool.old c }
    ensures walking { (env : Env) → value_in env pool.new result.walking ≡ walking_of z.index (value_in env pool.old c.held.walk) }
    ensures misses { (env : Env) → value_in env pool.new result.misses
        ≡ misses_of (looks_of (value_in env pool.old c.held.given) (value_in env pool.old c.held.owed) (walking_of z.index (value_in env pool.old c.held.walk)))
        (value_in env pool.old c.held.captured) (hit_of z.index z.place (value_in env pool.old c.held.pc) (value_in env pool.old c.tag)) (value_in env pool.old c.coming.redirect) }
    ensures room { (env : Env) → value_in env pool.new result.room ≡ room_of (value_in env pool.old c.held.full) (value_in env pool.old c.coming.take) }
    ensures moves { (env : Env) → value_in env pool.new result.moves
        ≡ moves_of (looks_of (value_in env pool.old c.held.given) (value_in env pool.old c.held.owed) (walking_of z.index (value_in env pool.old c.held.walk)))
        (value_in env pool.old c.held.captured) (hit_of z.index z.place (value_in env pool.old c.held.pc) (value_in env pool.old c.tag)) (room_of (value_in env pool.old c.held.full) (value_in env pool.old c.coming.take)) }
    ensures word { (env : Env) → value_in env pool.new result.word ≡ choose (value_in env pool.old c.held.captured) (value_in env pool.old c.held.captured_word) (value_in env pool.old c.cell) }
    ensures error { (env : Env) → value_in env pool.new result.error ≡ bit_and (value_in env pool.old c.held.captured) (value_in env pool.old c.held.captured_error) }
    ensures nets { IsSearch pool.new result }
    ensures scope { (s : Scope) → IsCycleIn s pool.old c → IsSearchIn s pool.new result }
    ensures step { Step pool.old pool.new 21 }
{
    let walking = walking(pool, z, c.held.walk);
    let looks = looks(pool, c.held.given, c.held.owed, walking);
    let hit = hit(pool, z, c.held.pc, c.tag);
    let misses = misses(pool, looks, c.held.captured, hit, c.coming.redirect);
    let room = room(pool, c.held.full, c.coming.take);
    let moves = moves(pool, looks, c.held.captured, hit, room);
    let word = mux(pool, c.held.captured, c.held.captured_word, c.cell);
    let error = and(pool, c.held.captured, c.held.captured_error);
    Search {
        walking,
        misses,
        room,
        moves,
        word,
        error,
    }
}
