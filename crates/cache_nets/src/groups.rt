ghost use Rattle.std.specs.Prelude.{◌≡◌, ℕ, ◌+◌, ◌-◌, ◌≤◌};
ghost use Rattle.hw_pool.specs.Meaning.{Env};
ghost use Rattle.hw_pool.specs.Scope.{Scope};
ghost use Rattle.hw_gates.specs.Places.{Is, IsIn, Step, value_in};
ghost use Rattle.core_words.specs.Values.{choose};
ghost use Rattle.cache_nets.specs.Machine.{bad_of, captured_of, dropped_of, full_of, given_of, line_of, owed_of, pc_of, place_of, walk_of, wanted_of};
ghost use Rattle.cache_nets.specs.Nets.{AreFour, AreFourIn, IsCycle, IsCycleIn, IsFill, IsFillIn, IsSearch, IsSearchIn};

use crate::regs;
use crate::shapes::{Cycle, Fill, Four, Search, Sizes};
use hw_gates::mux;
use hw_pool::Pool;

/// The next values of pc, walk, given and owed.
#[tactic(auto, using(hw_gates::proofs::Plain::plain))]
pub(crate) fn front_nets(pool: &mut Pool, z: Sizes, c: Cycle, x: Search, y: Fill) -> Four
    requires spare { 15 ≤ pool.old.spare }
    requires index { 1 ≤ z.index }
    requires few_lines { z.index ≤ 10 }
    requires place { 1 ≤ z.place }
    requires few_words { z.place ≤ 4 }
    requires cycle { IsCycle z pool.old c }
    requires search { IsSearch pool.old x }
    requires fill { IsFill pool.old y }
    ensures first { (env : Env) → value_in env pool.new result.first
        ≡ pc_of (value_in env pool.old c.coming.redirect) (value_in env pool.old c.coming.redirect_pc) (value_in env pool.old x.moves) (value_in env pool.old c.guess) (value_in env pool.old c.held.pc) }
    ensures second { (env : Env) → value_in env pool.new result.second
        ≡ walk_of z.index (value_in env pool.old c.coming.fence) (value_in env pool.old x.walking) (value_in env pool.old c.held.walk) }
    ensures third { (env : Env) → value_in env pool.new result.third
        ≡ given_of (value_in env pool.old x.misses) (value_in env pool.old y.goes_on) (value_in env pool.old c.held.given) (value_in env pool.old c.coming.ready) }
    ensures fourth { (env : Env) → value_in env pool.new result.fourth
        ≡ owed_of (value_in env pool.old c.held.given) (value_in env pool.old c.coming.ready) (value_in env pool.old c.held.owed) (value_in env pool.old y.response) }
    ensures nets { AreFour pool.new result 32 (z.index + 1) 1 1 }
    ensures scope { (s : Scope) → IsCycleIn s pool.old c → IsSearchIn s pool.old x → IsFillIn s pool.old y → AreFourIn s pool.new result }
    ensures step { Step pool.old pool.new 15 }
{
    let first = regs::pc_next(
        pool,
        c.coming.redirect,
        c.coming.redirect_pc,
        x.moves,
        c.guess,
        c.held.pc,
    );
    let second = regs::walk_next(pool, z, c.coming.fence, x.walking, c.held.walk);
    let third = regs::given_next(pool, x.misses, y.goes_on, c.held.given, c.coming.ready);
    let fourth = regs::owed_next(pool, c.held.given, c.coming.ready, c.held.owed, y.response);
    Four {
        first,
        second,
        third,
        fourth,
    }
}

/// The next values of dropped, line, place and bad.
#[tactic(auto, using(hw_gates::proofs::Plain::plain))]
pub(crate) fn reading_nets(pool: &mut Pool, z: Sizes, c: Cycle, x: Search, y: Fill) -> Four
    requires spare { 15 ≤ pool.old.spare }
    requires index { 1 ≤ z.index }
    requires few_lines { z.index ≤ 10 }
    requires place { 1 ≤ z.place }
    requires few_words { z.place ≤ 4 }
    requires cycle { IsCycle z pool.old c }
    requires search { IsSearch pool.old x }
    requires fill { IsFill pool.old y }
    ensures first { (env : Env) → value_in env pool.new result.first
        ≡ dropped_of (value_in env pool.old c.coming.fence) (value_in env pool.old c.held.dropped) (value_in env pool.old c.held.given) (value_in env pool.old c.held.owed) (value_in env pool.old y.response) }
    ensures second { (env : Env) → value_in env pool.new result.second
        ≡ line_of z.place (value_in env pool.old x.misses) (value_in env pool.old c.held.pc) (value_in env pool.old c.held.line) }
    ensures third { (env : Env) → value_in env pool.new result.third
        ≡ place_of z.place (value_in env pool.old x.misses) (value_in env pool.old y.goes_on) (value_in env pool.old c.held.place) }
    ensures fourth { (env : Env) → value_in env pool.new result.fourth
        ≡ bad_of (value_in env pool.old x.misses) (value_in env pool.old y.keeps) (value_in env pool.old y.flawed) (value_in env pool.old c.held.bad) }
    ensures nets { AreFour pool.new result 1 (30 - z.place) z.place 1 }
    ensures scope { (s : Scope) → IsCycleIn s pool.old c → IsSearchIn s pool.old x → IsFillIn s pool.old y → AreFourIn s pool.new result }
    ensures step { Step pool.old pool.new 15 }
{
    let first = regs::dropped_next(
        pool,
        c.coming.fence,
        c.held.dropped,
        c.held.given,
        c.held.owed,
        y.response,
    );
    let second = regs::line_next(pool, z, x.misses, c.held.pc, c.held.line);
    let third = regs::place_next(pool, z, x.misses, y.goes_on, c.held.place);
    let fourth = regs::bad_next(pool, x.misses, y.keeps, y.flawed, c.held.bad);
    Four {
        first,
        second,
        third,
        fourth,
    }
}

/// The next values of wanted, captured, and the captured word and error.
#[tactic(auto, using(hw_gates::proofs::Plain::plain))]
pub(crate) fn caught_nets(pool: &mut Pool, z: Sizes, c: Cycle, x: Search, y: Fill) -> Four
    requires spare { 12 ≤ pool.old.spare }
    requires index { 1 ≤ z.index }
    requires few_lines { z.index ≤ 10 }
    requires place { 1 ≤ z.place }
    requires few_words { z.place ≤ 4 }
    requires cycle { IsCycle z pool.old c }
    requires search { IsSearch pool.old x }
    requires fill { IsFill pool.old y }
    ensures first { (env : Env) → value_in env pool.new result.first
        ≡ wanted_of (value_in env pool.old x.misses) (value_in env pool.old c.held.wanted) (value_in env pool.old c.coming.redirect) }
    ensures second { (env : Env) → value_in env pool.new result.second
        ≡ captured_of (value_in env pool.old y.ends) (value_in env pool.old c.held.wanted) (value_in env pool.old y.flawed) (value_in env pool.old c.held.captured) (value_in env pool.old x.moves) (value_in env pool.old c.coming.redirect) }
    ensures third { (env : Env) → value_in env pool.new result.third
        ≡ choose (value_in env pool.old y.captures) (value_in env pool.old c.coming.payload) (value_in env pool.old c.held.captured_word) }
    ensures fourth { (env : Env) → value_in env pool.new result.fourth
        ≡ choose (value_in env pool.old y.captures) (value_in env pool.old c.coming.failed) (value_in env pool.old c.held.captured_error) }
    ensures nets { AreFour pool.new result 1 1 32 1 }
    ensures scope { (s : Scope) → IsCycleIn s pool.old c → IsSearchIn s pool.old x → IsFillIn s pool.old y → AreFourIn s pool.new result }
    ensures step { Step pool.old pool.new 12 }
{
    let first = regs::wanted_next(pool, x.misses, c.held.wanted, c.coming.redirect);
    let second = regs::captured_next(
        pool,
        y.ends,
        c.held.wanted,
        y.flawed,
        c.held.captured,
        x.moves,
        c.coming.redirect,
    );
    let third = mux(pool, y.captures, c.coming.payload, c.held.captured_word);
    let fourth = mux(pool, y.captures, c.coming.failed, c.held.captured_error);
    Four {
        first,
        second,
        third,
        fourth,
    }
}

/// The next values of full, and the pc, word and error of the item.
#[tactic(auto, using(hw_gates::proofs::Plain::plain))]
pub(crate) fn item_nets(pool: &mut Pool, z: Sizes, c: Cycle, x: Search, y: Fill) -> Four
    requires spare { 8 ≤ pool.old.spare }
    requires index { 1 ≤ z.index }
    requires few_lines { z.index ≤ 10 }
    requires place { 1 ≤ z.place }
    requires few_words { z.place ≤ 4 }
    requires cycle { IsCycle z pool.old c }
    requires search { IsSearch pool.old x }
    requires fill { IsFill pool.old y }
    ensures first { (env : Env) → value_in env pool.new result.first
        ≡ full_of (value_in env pool.old c.coming.redirect) (value_in env pool.old x.moves) (value_in env pool.old c.held.full) (value_in env pool.old c.coming.take) }
    ensures second { (env : Env) → value_in env pool.new result.second
        ≡ choose (value_in env pool.old x.room) (value_in env pool.old c.held.pc) (value_in env pool.old c.held.out_pc) }
    ensures third { (env : Env) → value_in env pool.new result.third
        ≡ choose (value_in env pool.old x.room) (value_in env pool.old x.word) (value_in env pool.old c.held.out_word) }
    ensures fourth { (env : Env) → value_in env pool.new result.fourth
        ≡ choose (value_in env pool.old x.room) (value_in env pool.old x.error) (value_in env pool.old c.held.out_error) }
    ensures nets { AreFour pool.new result 1 32 32 1 }
    ensures scope { (s : Scope) → IsCycleIn s pool.old c → IsSearchIn s pool.old x → IsFillIn s pool.old y → AreFourIn s pool.new result }
    ensures step { Step pool.old pool.new 8 }
{
    let first = regs::full_next(pool, c.coming.redirect, x.moves, c.held.full, c.coming.take);
    let second = mux(pool, x.room, c.held.pc, c.held.out_pc);
    let third = mux(pool, x.room, x.word, c.held.out_word);
    let fourth = mux(pool, x.room, x.error, c.held.out_error);
    Four {
        first,
        second,
        third,
        fourth,
    }
}
