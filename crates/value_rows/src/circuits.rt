ghost use Rattle.std.specs.Prelude.{◌≡◌, ℕ, ◌≤◌, bit_and, bit_or, bit_xor, eqb, ltb};
ghost use Rattle.core_words.specs.Values.{bits_of, choose, join_of, one_if};
ghost use Rattle.hw_pool.specs.Meaning.{Env};
ghost use Rattle.hw_pool.specs.Scope.{Scope};
ghost use Rattle.hw_gates.specs.Places.{Is, IsIn, Step, value_in};

use hw_expr::Net;
use hw_gates::{and, cat, eq, lit, ltu, mux, or, slice, xor};
use hw_pool::Pool;
use hw_words::{
    adder, copies, gather, immediate_b, immediate_i, immediate_j, immediate_s, immediate_u, lower,
    reverse, same, shifted,
};
use std::alloc::Global;

/// Twelve calls over four nets, proved with no proof file.
fn mixed(pool: &mut Pool, c: Net, a: Net, b: Net, d: Net) -> Net
    requires spare { 12 ≤ pool.old.spare }
    requires c { Is pool.old c 1 4 }
    requires a { Is pool.old a 32 4 }
    requires b { Is pool.old b 32 4 }
    requires d { Is pool.old d 32 4 }
    ensures value { (env : Env) →
        let c0 = value_in env pool.old c in
        let a0 = value_in env pool.old a in
        let b0 = value_in env pool.old b in
        let d0 = value_in env pool.old d in
        let picked = choose (bit_and (bits_of d0 12 12) c0) (bit_xor a0 b0) (bit_or a0 b0) in
        value_in env pool.new result ≡ choose (bits_of d0 2 2) picked (join_of 31 (bit_or (one_if (eqb a0 b0)) (one_if (ltb a0 b0))) (bits_of d0 31 1)) }
    ensures net { Is pool.new result 32 4 }
    ensures scope { (s : Scope) → IsIn s pool.old c → IsIn s pool.old a → IsIn s pool.old b → IsIn s pool.old d → IsIn s pool.new result }
    ensures step { Step pool.old pool.new 12 }
{
    let one = xor(pool, a, b);
    let any = or(pool, a, b);
    let bit = slice(pool, d, 12, 12);
    let is_one = and(pool, bit, c);
    let picked = mux(pool, is_one, one, any);
    let equal = eq(pool, a, b);
    let less = ltu(pool, a, b);
    let most = or(pool, equal, less);
    let high = slice(pool, d, 31, 1);
    let joined = cat(pool, most, high);
    let is_picked = slice(pool, d, 2, 2);
    mux(pool, is_picked, picked, joined)
}

/// Whether each circuit has its width.
pub fn widths_are_right(alloc: Global) -> bool {
    let mut pool = Pool::new(alloc);
    if pool.reserve(256).is_err() {
        return false;
    }
    let bit = lit(&mut pool, 1, 1);
    let word = lit(&mut pool, 32, 0xdead_beef);
    let amount = slice(&mut pool, word, 4, 0);
    let (sum, carry) = adder(&mut pool, bit, word, word);
    let ones = copies(&mut pool, bit, 5);
    let seven = gather(&mut pool, bit, 7, ones);
    let i = immediate_i(&mut pool, word);
    let s = immediate_s(&mut pool, word);
    let u = immediate_u(&mut pool, word);
    let b = immediate_b(&mut pool, word);
    let j = immediate_j(&mut pool, word);
    let mixed = mixed(&mut pool, bit, word, b, j);
    let less = lower(&mut pool, bit, word, mixed);
    let equal = same(&mut pool, word, mixed);
    let back = reverse(&mut pool, word);
    let moved = shifted(&mut pool, amount, bit, back);
    let widths = [
        sum.width,
        carry.width,
        ones.width,
        seven.width,
        i.width,
        s.width,
        u.width,
        b.width,
        j.width,
        mixed.width,
        less.width,
        equal.width,
        back.width,
        moved.width,
        moved.level,
    ];
    widths == [32, 1, 5, 5, 32, 32, 32, 32, 32, 32, 1, 1, 32, 32, 0]
}
