ghost use Rattle.std.specs.Prelude.{◌≡◌, ℕ, ◌≤◌};
ghost use Rattle.hw_pool.specs.Meaning.{Env};
ghost use Rattle.hw_pool.specs.Scope.{Scope};
ghost use Rattle.hw_gates.specs.Places.{Step, value_in};
ghost use Rattle.cache_nets.specs.Machine.{
  Now,
  address_in,
  caught_after,
  fill_at,
  front_after,
  item_after,
  reading_after,
  search_at,
  tag_write,
  word_write,
};
ghost use Rattle.cache_nets.specs.Nets.{AreNexts, AreNextsIn, IsCycle, IsCycleIn, four_in, seen_in, write_in};

use crate::fills::fill_nets;
use crate::groups::{caught_nets, front_nets, item_nets, reading_nets};
use crate::look::search_nets;
use crate::parts::address_in;
use crate::shapes::{Cycle, Nexts, Sizes};
use crate::writes::{tag_write, word_write};
use hw_pool::Pool;

/// What the registers and arrays hold next, from what a cycle reads.
pub fn cycle_nets(pool: &mut Pool, z: Sizes, c: Cycle) -> Nexts
    requires spare { 102 ≤ pool.old.spare }
    requires index { 1 ≤ z.index }
    requires few_lines { z.index ≤ 10 }
    requires place { 1 ≤ z.place }
    requires few_words { z.place ≤ 4 }
    requires cycle { IsCycle z pool.old c }
    ensures front { (n : Env → Now) → ((env : Env) → seen_in env pool.old c ≡ n env) → (env : Env)
        → four_in env pool.new result.front ≡ front_after z.index z.place (n env) (search_at z.index z.place (n env)) (fill_at z.place (n env)) }
    ensures reading { (n : Env → Now) → ((env : Env) → seen_in env pool.old c ≡ n env) → (env : Env)
        → four_in env pool.new result.reading ≡ reading_after z.index z.place (n env) (search_at z.index z.place (n env)) (fill_at z.place (n env)) }
    ensures caught { (n : Env → Now) → ((env : Env) → seen_in env pool.old c ≡ n env) → (env : Env)
        → four_in env pool.new result.caught ≡ caught_after z.index z.place (n env) (search_at z.index z.place (n env)) (fill_at z.place (n env)) }
    ensures item { (n : Env → Now) → ((env : Env) → seen_in env pool.old c ≡ n env) → (env : Env)
        → four_in env pool.new result.item ≡ item_after z.index z.place (n env) (search_at z.index z.place (n env)) (fill_at z.place (n env)) }
    ensures tag { (n : Env → Now) → ((env : Env) → seen_in env pool.old c ≡ n env) → (env : Env)
        → write_in env pool.new result.tag ≡ tag_write z.index z.place (n env) (search_at z.index z.place (n env)) (fill_at z.place (n env)) }
    ensures cell { (n : Env → Now) → ((env : Env) → seen_in env pool.old c ≡ n env) → (env : Env)
        → write_in env pool.new result.cell ≡ word_write z.index z.place (n env) (search_at z.index z.place (n env)) (fill_at z.place (n env)) }
    ensures word { (n : Env → Now) → ((env : Env) → seen_in env pool.old c ≡ n env) → (env : Env) → value_in env pool.new result.word ≡ (search_at z.index z.place (n env)).word }
    ensures address { (n : Env → Now) → ((env : Env) → seen_in env pool.old c ≡ n env) → (env : Env) → value_in env pool.new result.address ≡ address_in z.place (n env).line (n env).place }
    ensures nets { AreNexts z pool.new result }
    ensures scope { (s : Scope) → IsCycleIn s pool.old c → AreNextsIn s pool.new result }
    ensures step { Step pool.old pool.new 102 }
{
    let x = search_nets(pool, z, c);
    let y = fill_nets(pool, z, c);
    let front = front_nets(pool, z, c, x, y);
    let reading = reading_nets(pool, z, c, x, y);
    let caught = caught_nets(pool, z, c, x, y);
    let item = item_nets(pool, z, c, x, y);
    let tag = tag_write(pool, z, c, x, y);
    let cell = word_write(pool, z, c, y);
    let address = address_in(pool, z, c.held.line, c.held.place);
    Nexts {
        front,
        reading,
        caught,
        item,
        tag,
        cell,
        word: x.word,
        address,
    }
}
