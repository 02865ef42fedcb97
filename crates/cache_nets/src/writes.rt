ghost use Rattle.std.specs.Prelude.{◌≡◌, ℕ, ◌+◌, ◌-◌, ◌≤◌};
ghost use Rattle.hw_pool.specs.Meaning.{Env};
ghost use Rattle.hw_pool.specs.Scope.{Scope};
ghost use Rattle.hw_gates.specs.Places.{Is, IsIn, Step, value_in};
ghost use Rattle.cache_nets.specs.Machine.{cell_in, tag_index_of, tag_of, writes_tag_of};
ghost use Rattle.cache_nets.specs.Nets.{IsCycle, IsCycleIn, IsFill, IsFillIn, IsSearch, IsSearchIn, IsWrite, IsWriteIn};

use crate::parts;
use crate::shapes::{Cycle, Fill, Search, Sizes, Write};
use hw_expr::Net;
use hw_gates::{lit, mux, or};
use hw_pool::Pool;

/// The index of the tag that is written.
#[tactic(auto, unfolding(crate::specs::Machine::tag_index_of))]
fn tag_index(pool: &mut Pool, z: Sizes, walking: Net, walk: Net, line: Net) -> Net
    requires spare { 3 ≤ pool.old.spare }
    requires index { 1 ≤ z.index }
    requires few_lines { z.index ≤ 10 }
    requires place { 1 ≤ z.place }
    requires few_words { z.place ≤ 4 }
    requires walking { Is pool.old walking 1 8 }
    requires walk { Is pool.old walk (z.index + 1) 0 }
    requires line { Is pool.old line (30 - z.place) 0 }
    ensures value { (env : Env) → value_in env pool.new result ≡ tag_index_of z.index (value_in env pool.old walking) (value_in env pool.old walk) (value_in env pool.old line) }
    ensures net { Is pool.new result z.index 8 }
    ensures scope { (s : Scope) → IsIn s pool.old walking → IsIn s pool.old walk → IsIn s pool.old line → IsIn s pool.new result }
    ensures step { Step pool.old pool.new 3 }
{
    let cleared = parts::index_of_walk(pool, z, walk);
    let filled = parts::index_in(pool, z, line);
    mux(pool, walking, cleared, filled)
}

/// The tag that is written: 0 where one is cleared, and where a word of the line was an error.
#[tactic(auto, unfolding(crate::specs::Machine::tag_of))]
fn tag(pool: &mut Pool, z: Sizes, walking: Net, flawed: Net, line: Net) -> Net
    requires spare { 6 ≤ pool.old.spare }
    requires index { 1 ≤ z.index }
    requires few_lines { z.index ≤ 10 }
    requires place { 1 ≤ z.place }
    requires few_words { z.place ≤ 4 }
    requires walking { Is pool.old walking 1 8 }
    requires flawed { Is pool.old flawed 1 8 }
    requires line { Is pool.old line (30 - z.place) 0 }
    ensures value { (env : Env) → value_in env pool.new result ≡ tag_of z.index z.place (value_in env pool.old walking) (value_in env pool.old flawed) (value_in env pool.old line) }
    ensures net { Is pool.new result (31 - z.place - z.index) 8 }
    ensures scope { (s : Scope) → IsIn s pool.old walking → IsIn s pool.old flawed → IsIn s pool.old line → IsIn s pool.new result }
    ensures step { Step pool.old pool.new 6 }
{
    let clears = or(pool, walking, flawed);
    let none = lit(pool, 31 - z.place - z.index, 0);
    let line = parts::tag_in(pool, z, line);
    mux(pool, clears, none, line)
}

/// The write of the tags: the walk clears one, and a fill that ends writes one.
#[tactic(auto, using(hw_gates::proofs::Plain::plain), unfolding(crate::specs::Machine::writes_tag_of))]
pub(crate) fn tag_write(pool: &mut Pool, z: Sizes, c: Cycle, x: Search, y: Fill) -> Write
    requires spare { 10 ≤ pool.old.spare }
    requires index { 1 ≤ z.index }
    requires few_lines { z.index ≤ 10 }
    requires place { 1 ≤ z.place }
    requires few_words { z.place ≤ 4 }
    requires cycle { IsCycle z pool.old c }
    requires search { IsSearch pool.old x }
    requires fill { IsFill pool.old y }
    ensures enable { (env : Env) → value_in env pool.new result.enable ≡ writes_tag_of (value_in env pool.old x.walking) (value_in env pool.old y.ends) }
    ensures addr { (env : Env) → value_in env pool.new result.addr
        ≡ tag_index_of z.index (value_in env pool.old x.walking) (value_in env pool.old c.held.walk) (value_in env pool.old c.held.line) }
    ensures item { (env : Env) → value_in env pool.new result.value
        ≡ tag_of z.index z.place (value_in env pool.old x.walking) (value_in env pool.old y.flawed) (value_in env pool.old c.held.line) }
    ensures nets { IsWrite pool.new result z.index (31 - z.place - z.index) }
    ensures scope { (s : Scope) → IsCycleIn s pool.old c → IsSearchIn s pool.old x → IsFillIn s pool.old y → IsWriteIn s pool.new result }
    ensures step { Step pool.old pool.new 10 }
{
    let enable = or(pool, x.walking, y.ends);
    let addr = tag_index(pool, z, x.walking, c.held.walk, c.held.line);
    let value = tag(pool, z, x.walking, y.flawed, c.held.line);
    Write {
        enable,
        addr,
        value,
    }
}

/// The write of the words: the word that comes, where it is kept.
#[tactic(auto, using(hw_gates::proofs::Plain::plain))]
pub(crate) fn word_write(pool: &mut Pool, z: Sizes, c: Cycle, y: Fill) -> Write
    requires spare { 2 ≤ pool.old.spare }
    requires index { 1 ≤ z.index }
    requires few_lines { z.index ≤ 10 }
    requires place { 1 ≤ z.place }
    requires few_words { z.place ≤ 4 }
    requires cycle { IsCycle z pool.old c }
    requires fill { IsFill pool.old y }
    ensures enable { (env : Env) → value_in env pool.new result.enable ≡ value_in env pool.old y.keeps }
    ensures addr { (env : Env) → value_in env pool.new result.addr ≡ cell_in z.index z.place (value_in env pool.old c.held.line) (value_in env pool.old c.held.place) }
    ensures item { (env : Env) → value_in env pool.new result.value ≡ value_in env pool.old c.coming.payload }
    ensures nets { IsWrite pool.new result (z.index + z.place) 32 }
    ensures scope { (s : Scope) → IsCycleIn s pool.old c → IsFillIn s pool.old y → IsWriteIn s pool.new result }
    ensures step { Step pool.old pool.new 2 }
{
    let addr = parts::cell_in(pool, z, c.held.line, c.held.place);
    Write {
        enable: y.keeps,
        addr,
        value: c.coming.payload,
    }
}
