ghost use Rattle.std.specs.Prelude.{◌≡◌, ℕ, ◌+◌, ◌-◌, ◌≤◌};
ghost use Rattle.hw_pool.specs.Meaning.{Env};
ghost use Rattle.hw_pool.specs.Scope.{Scope};
ghost use Rattle.hw_gates.specs.Places.{Is, IsIn, Step, value_in};
ghost use Rattle.core_words.specs.Values.{bits_of};
ghost use Rattle.cache_nets.specs.Machine.{address_in, cell_at, cell_in, hit_of, index_at, index_in, line_at, place_at, tag_at, tag_in, walking_of};

use crate::shapes::Sizes;
use hw_expr::Net;
use hw_gates::{cat, eq, lit, not, slice};
use hw_pool::Pool;

/// The index of the line of a pc.
#[tactic(auto, unfolding(crate::specs::Machine::index_at))]
pub fn index_of(pool: &mut Pool, z: Sizes, pc: Net) -> Net
    requires spare { 1 ≤ pool.old.spare }
    requires index { 1 ≤ z.index }
    requires few_lines { z.index ≤ 10 }
    requires place { 1 ≤ z.place }
    requires few_words { z.place ≤ 4 }
    requires pc { Is pool.old pc 32 0 }
    ensures value { (env : Env) → value_in env pool.new result ≡ index_at z.index z.place (value_in env pool.old pc) }
    ensures net { Is pool.new result z.index 0 }
    ensures scope { (s : Scope) → IsIn s pool.old pc → IsIn s pool.new result }
    ensures step { Step pool.old pool.new 1 }
{
    slice(pool, pc, z.index + z.place + 1, z.place + 2)
}

/// The place of the word of a pc in its line.
#[tactic(auto, unfolding(crate::specs::Machine::place_at))]
pub(crate) fn place_of(pool: &mut Pool, z: Sizes, pc: Net) -> Net
    requires spare { 1 ≤ pool.old.spare }
    requires index { 1 ≤ z.index }
    requires few_lines { z.index ≤ 10 }
    requires place { 1 ≤ z.place }
    requires few_words { z.place ≤ 4 }
    requires pc { Is pool.old pc 32 0 }
    ensures value { (env : Env) → value_in env pool.new result ≡ place_at z.place (value_in env pool.old pc) }
    ensures net { Is pool.new result z.place 0 }
    ensures scope { (s : Scope) → IsIn s pool.old pc → IsIn s pool.new result }
    ensures step { Step pool.old pool.new 1 }
{
    slice(pool, pc, z.place + 1, 2)
}

/// The number of the word of a pc among those of all lines.
#[tactic(auto, unfolding(crate::specs::Machine::cell_at))]
pub fn cell_of(pool: &mut Pool, z: Sizes, pc: Net) -> Net
    requires spare { 3 ≤ pool.old.spare }
    requires index { 1 ≤ z.index }
    requires few_lines { z.index ≤ 10 }
    requires place { 1 ≤ z.place }
    requires few_words { z.place ≤ 4 }
    requires pc { Is pool.old pc 32 0 }
    ensures value { (env : Env) → value_in env pool.new result ≡ cell_at z.index z.place (value_in env pool.old pc) }
    ensures net { Is pool.new result (z.index + z.place) 0 }
    ensures scope { (s : Scope) → IsIn s pool.old pc → IsIn s pool.new result }
    ensures step { Step pool.old pool.new 3 }
{
    let index = index_of(pool, z, pc);
    let place = place_of(pool, z, pc);
    cat(pool, index, place)
}

/// The line of a pc.
#[tactic(auto, unfolding(crate::specs::Machine::line_at))]
pub(crate) fn line_of(pool: &mut Pool, z: Sizes, pc: Net) -> Net
    requires spare { 1 ≤ pool.old.spare }
    requires index { 1 ≤ z.index }
    requires few_lines { z.index ≤ 10 }
    requires place { 1 ≤ z.place }
    requires few_words { z.place ≤ 4 }
    requires pc { Is pool.old pc 32 0 }
    ensures value { (env : Env) → value_in env pool.new result ≡ line_at z.place (value_in env pool.old pc) }
    ensures net { Is pool.new result (30 - z.place) 0 }
    ensures scope { (s : Scope) → IsIn s pool.old pc → IsIn s pool.new result }
    ensures step { Step pool.old pool.new 1 }
{
    slice(pool, pc, 31, z.place + 2)
}

/// The upper bits of the line of a pc.
fn upper_of(pool: &mut Pool, z: Sizes, pc: Net) -> Net
    requires spare { 1 ≤ pool.old.spare }
    requires index { 1 ≤ z.index }
    requires few_lines { z.index ≤ 10 }
    requires place { 1 ≤ z.place }
    requires few_words { z.place ≤ 4 }
    requires pc { Is pool.old pc 32 0 }
    ensures value { (env : Env) → value_in env pool.new result ≡ bits_of (value_in env pool.old pc) 31 (z.index + z.place + 2) }
    ensures net { Is pool.new result (30 - z.place - z.index) 0 }
    ensures scope { (s : Scope) → IsIn s pool.old pc → IsIn s pool.new result }
    ensures step { Step pool.old pool.new 1 }
{
    slice(pool, pc, 31, z.index + z.place + 2)
}

/// One bit: the line of a pc is the one that a tag holds.
#[tactic(auto, unfolding(crate::specs::Machine::hit_of, crate::specs::Machine::tag_at))]
pub(crate) fn hit(pool: &mut Pool, z: Sizes, pc: Net, tag: Net) -> Net
    requires spare { 4 ≤ pool.old.spare }
    requires index { 1 ≤ z.index }
    requires few_lines { z.index ≤ 10 }
    requires place { 1 ≤ z.place }
    requires few_words { z.place ≤ 4 }
    requires pc { Is pool.old pc 32 0 }
    requires tag { Is pool.old tag (31 - z.place - z.index) 0 }
    ensures value { (env : Env) → value_in env pool.new result ≡ hit_of z.index z.place (value_in env pool.old pc) (value_in env pool.old tag) }
    ensures net { Is pool.new result 1 0 }
    ensures scope { (s : Scope) → IsIn s pool.old pc → IsIn s pool.old tag → IsIn s pool.new result }
    ensures step { Step pool.old pool.new 4 }
{
    let upper = upper_of(pool, z, pc);
    let one = lit(pool, 1, 1);
    let line = cat(pool, one, upper);
    eq(pool, tag, line)
}

/// The low bits of a line, an index.
#[tactic(auto, unfolding(crate::specs::Machine::index_in))]
pub(crate) fn index_in(pool: &mut Pool, z: Sizes, line: Net) -> Net
    requires spare { 1 ≤ pool.old.spare }
    requires index { 1 ≤ z.index }
    requires few_lines { z.index ≤ 10 }
    requires place { 1 ≤ z.place }
    requires few_words { z.place ≤ 4 }
    requires line { Is pool.old line (30 - z.place) 0 }
    ensures value { (env : Env) → value_in env pool.new result ≡ index_in z.index (value_in env pool.old line) }
    ensures net { Is pool.new result z.index 0 }
    ensures scope { (s : Scope) → IsIn s pool.old line → IsIn s pool.new result }
    ensures step { Step pool.old pool.new 1 }
{
    slice(pool, line, z.index - 1, 0)
}

/// The low bits of the walk, an index.
#[tactic(auto, unfolding(crate::specs::Machine::index_in))]
pub(crate) fn index_of_walk(pool: &mut Pool, z: Sizes, walk: Net) -> Net
    requires spare { 1 ≤ pool.old.spare }
    requires index { 1 ≤ z.index }
    requires few_lines { z.index ≤ 10 }
    requires place { 1 ≤ z.place }
    requires few_words { z.place ≤ 4 }
    requires walk { Is pool.old walk (z.index + 1) 0 }
    ensures value { (env : Env) → value_in env pool.new result ≡ index_in z.index (value_in env pool.old walk) }
    ensures net { Is pool.new result z.index 0 }
    ensures scope { (s : Scope) → IsIn s pool.old walk → IsIn s pool.new result }
    ensures step { Step pool.old pool.new 1 }
{
    slice(pool, walk, z.index - 1, 0)
}

/// The upper bits of a line.
fn upper_in(pool: &mut Pool, z: Sizes, line: Net) -> Net
    requires spare { 1 ≤ pool.old.spare }
    requires index { 1 ≤ z.index }
    requires few_lines { z.index ≤ 10 }
    requires place { 1 ≤ z.place }
    requires few_words { z.place ≤ 4 }
    requires line { Is pool.old line (30 - z.place) 0 }
    ensures value { (env : Env) → value_in env pool.new result ≡ bits_of (value_in env pool.old line) (29 - z.place) z.index }
    ensures net { Is pool.new result (30 - z.place - z.index) 0 }
    ensures scope { (s : Scope) → IsIn s pool.old line → IsIn s pool.new result }
    ensures step { Step pool.old pool.new 1 }
{
    slice(pool, line, 29 - z.place, z.index)
}

/// The tag of a line that is held.
#[tactic(auto, unfolding(crate::specs::Machine::tag_in))]
pub(crate) fn tag_in(pool: &mut Pool, z: Sizes, line: Net) -> Net
    requires spare { 3 ≤ pool.old.spare }
    requires index { 1 ≤ z.index }
    requires few_lines { z.index ≤ 10 }
    requires place { 1 ≤ z.place }
    requires few_words { z.place ≤ 4 }
    requires line { Is pool.old line (30 - z.place) 0 }
    ensures value { (env : Env) → value_in env pool.new result ≡ tag_in z.index z.place (value_in env pool.old line) }
    ensures net { Is pool.new result (31 - z.place - z.index) 0 }
    ensures scope { (s : Scope) → IsIn s pool.old line → IsIn s pool.new result }
    ensures step { Step pool.old pool.new 3 }
{
    let upper = upper_in(pool, z, line);
    let one = lit(pool, 1, 1);
    cat(pool, one, upper)
}

/// The number of a word of a line among those of all lines.
#[tactic(auto, unfolding(crate::specs::Machine::cell_in))]
pub(crate) fn cell_in(pool: &mut Pool, z: Sizes, line: Net, place: Net) -> Net
    requires spare { 2 ≤ pool.old.spare }
    requires index { 1 ≤ z.index }
    requires few_lines { z.index ≤ 10 }
    requires place { 1 ≤ z.place }
    requires few_words { z.place ≤ 4 }
    requires line { Is pool.old line (30 - z.place) 0 }
    requires place_net { Is pool.old place z.place 0 }
    ensures value { (env : Env) → value_in env pool.new result ≡ cell_in z.index z.place (value_in env pool.old line) (value_in env pool.old place) }
    ensures net { Is pool.new result (z.index + z.place) 0 }
    ensures scope { (s : Scope) → IsIn s pool.old line → IsIn s pool.old place → IsIn s pool.new result }
    ensures step { Step pool.old pool.new 2 }
{
    let index = index_in(pool, z, line);
    cat(pool, index, place)
}

/// The address of a word of a line.
#[tactic(auto, unfolding(crate::specs::Machine::address_in))]
pub(crate) fn address_in(pool: &mut Pool, z: Sizes, line: Net, place: Net) -> Net
    requires spare { 3 ≤ pool.old.spare }
    requires index { 1 ≤ z.index }
    requires few_lines { z.index ≤ 10 }
    requires place { 1 ≤ z.place }
    requires few_words { z.place ≤ 4 }
    requires line { Is pool.old line (30 - z.place) 0 }
    requires place_net { Is pool.old place z.place 0 }
    ensures value { (env : Env) → value_in env pool.new result ≡ address_in z.place (value_in env pool.old line) (value_in env pool.old place) }
    ensures net { Is pool.new result 32 0 }
    ensures scope { (s : Scope) → IsIn s pool.old line → IsIn s pool.old place → IsIn s pool.new result }
    ensures step { Step pool.old pool.new 3 }
{
    let word = cat(pool, line, place);
    let zeros = lit(pool, 2, 0);
    cat(pool, word, zeros)
}

/// The highest bit of the walk.
fn top_of(pool: &mut Pool, z: Sizes, walk: Net) -> Net
    requires spare { 1 ≤ pool.old.spare }
    requires index { 1 ≤ z.index }
    requires few_lines { z.index ≤ 10 }
    requires place { 1 ≤ z.place }
    requires few_words { z.place ≤ 4 }
    requires walk { Is pool.old walk (z.index + 1) 0 }
    ensures value { (env : Env) → value_in env pool.new result ≡ bits_of (value_in env pool.old walk) z.index z.index }
    ensures net { Is pool.new result 1 0 }
    ensures scope { (s : Scope) → IsIn s pool.old walk → IsIn s pool.new result }
    ensures step { Step pool.old pool.new 1 }
{
    slice(pool, walk, z.index, z.index)
}

/// One bit: the walk still clears tags.
#[tactic(auto, unfolding(crate::specs::Machine::walking_of))]
pub(crate) fn walking(pool: &mut Pool, z: Sizes, walk: Net) -> Net
    requires spare { 2 ≤ pool.old.spare }
    requires index { 1 ≤ z.index }
    requires few_lines { z.index ≤ 10 }
    requires place { 1 ≤ z.place }
    requires few_words { z.place ≤ 4 }
    requires walk { Is pool.old walk (z.index + 1) 0 }
    ensures value { (env : Env) → value_in env pool.new result ≡ walking_of z.index (value_in env pool.old walk) }
    ensures net { Is pool.new result 1 0 }
    ensures scope { (s : Scope) → IsIn s pool.old walk → IsIn s pool.new result }
    ensures step { Step pool.old pool.new 2 }
{
    let top = top_of(pool, z, walk);
    not(pool, top)
}
