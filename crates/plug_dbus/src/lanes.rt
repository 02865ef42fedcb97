ghost use Rattle.std.specs.Prelude.{◌≡◌, ℕ, ◌≤◌, cond};
ghost use Rattle.hw_pool.specs.Meaning.{Env};
ghost use Rattle.hw_pool.specs.Scope.{Scope};
ghost use Rattle.hw_gates.specs.Places.{Is, IsIn, Step, value_in};
ghost use Rattle.dbus_law.specs.Words.{bit, byte_extended, byte_in, byte_spread, half_extended, half_in, half_spread, spread_of};
ghost use Rattle.plug_dbus.specs.Machine.{mask_at, value_at};

use hw_expr::Net;
use hw_gates::{cat, lit, mux, slice};
use hw_pool::Pool;

/// The byte of a word at an address.
fn byte_at(pool: &mut Pool, address: Net, d: Net) -> Net
    requires spare { 9 ≤ pool.old.spare }
    requires address { Is pool.old address 32 4 }
    requires d { Is pool.old d 32 4 }
    ensures value { (env : Env) → value_in env pool.new result ≡ byte_in (bit (value_in env pool.old address) 1) (bit (value_in env pool.old address) 0) (value_in env pool.old d) }
    ensures net { Is pool.new result 8 4 }
    ensures scope { (s : Scope) → IsIn s pool.old address → IsIn s pool.old d → IsIn s pool.new result }
    ensures step { Step pool.old pool.new 9 }
{
    let high = slice(pool, address, 1, 1);
    let low = slice(pool, address, 0, 0);
    let third = slice(pool, d, 31, 24);
    let second = slice(pool, d, 23, 16);
    let first = slice(pool, d, 15, 8);
    let lowest = slice(pool, d, 7, 0);
    let above = mux(pool, low, third, second);
    let below = mux(pool, low, first, lowest);
    mux(pool, high, above, below)
}

/// The half of a word at an address.
fn half_at(pool: &mut Pool, address: Net, d: Net) -> Net
    requires spare { 4 ≤ pool.old.spare }
    requires address { Is pool.old address 32 4 }
    requires d { Is pool.old d 32 4 }
    ensures value { (env : Env) → value_in env pool.new result ≡ half_in (bit (value_in env pool.old address) 1) (value_in env pool.old d) }
    ensures net { Is pool.new result 16 4 }
    ensures scope { (s : Scope) → IsIn s pool.old address → IsIn s pool.old d → IsIn s pool.new result }
    ensures step { Step pool.old pool.new 4 }
{
    let high = slice(pool, address, 1, 1);
    let above = slice(pool, d, 31, 16);
    let below = slice(pool, d, 15, 0);
    mux(pool, high, above, below)
}

/// A byte as 32 bits, with its sign or zeros above as the word of the load says.
fn extend_byte(pool: &mut Pool, word: Net, n: Net) -> Net
    requires spare { 7 ≤ pool.old.spare }
    requires word { Is pool.old word 32 4 }
    requires n { Is pool.old n 8 4 }
    ensures value { (env : Env) → value_in env pool.new result ≡ byte_extended (bit (value_in env pool.old word) 14) (value_in env pool.old n) }
    ensures net { Is pool.new result 32 4 }
    ensures scope { (s : Scope) → IsIn s pool.old word → IsIn s pool.old n → IsIn s pool.new result }
    ensures step { Step pool.old pool.new 7 }
{
    let unsigned = slice(pool, word, 14, 14);
    let sign = slice(pool, n, 7, 7);
    let ones = lit(pool, 24, 0xff_ffff);
    let zeros = lit(pool, 24, 0);
    let signs = mux(pool, sign, ones, zeros);
    let above = mux(pool, unsigned, zeros, signs);
    cat(pool, above, n)
}

/// The same of a half.
fn extend_half(pool: &mut Pool, word: Net, n: Net) -> Net
    requires spare { 7 ≤ pool.old.spare }
    requires word { Is pool.old word 32 4 }
    requires n { Is pool.old n 16 4 }
    ensures value { (env : Env) → value_in env pool.new result ≡ half_extended (bit (value_in env pool.old word) 14) (value_in env pool.old n) }
    ensures net { Is pool.new result 32 4 }
    ensures scope { (s : Scope) → IsIn s pool.old word → IsIn s pool.old n → IsIn s pool.new result }
    ensures step { Step pool.old pool.new 7 }
{
    let unsigned = slice(pool, word, 14, 14);
    let sign = slice(pool, n, 15, 15);
    let ones = lit(pool, 16, 0xffff);
    let zeros = lit(pool, 16, 0);
    let signs = mux(pool, sign, ones, zeros);
    let above = mux(pool, unsigned, zeros, signs);
    cat(pool, above, n)
}

/// The value of a load, of 32 bits, from the word at its address.
#[tactic(auto, unfolding(crate::specs::Machine::value_at, dbus_law::specs::Words::kind_of))]
pub(crate) fn loaded(pool: &mut Pool, word: Net, address: Net, d: Net) -> Net
    requires spare { 31 ≤ pool.old.spare }
    requires word { Is pool.old word 32 4 }
    requires address { Is pool.old address 32 4 }
    requires d { Is pool.old d 32 4 }
    ensures value { (env : Env) → value_in env pool.new result ≡ value_at (value_in env pool.old word) (value_in env pool.old address) (value_in env pool.old d) }
    ensures net { Is pool.new result 32 4 }
    ensures scope { (s : Scope) → IsIn s pool.old word → IsIn s pool.old address → IsIn s pool.old d → IsIn s pool.new result }
    ensures step { Step pool.old pool.new 31 }
{
    let byte = byte_at(pool, address, d);
    let half = half_at(pool, address, d);
    let of_byte = extend_byte(pool, word, byte);
    let of_half = extend_half(pool, word, half);
    let is_half = slice(pool, word, 12, 12);
    let is_whole = slice(pool, word, 13, 13);
    let part = mux(pool, is_half, of_half, of_byte);
    mux(pool, is_whole, d, part)
}

/// The lane of the byte at an address, as a mask.
fn byte_lane(pool: &mut Pool, address: Net) -> Net
    requires spare { 9 ≤ pool.old.spare }
    requires address { Is pool.old address 32 4 }
    ensures value { (env : Env) → value_in env pool.new result
        ≡ cond (bit (value_in env pool.old address) 1) (cond (bit (value_in env pool.old address) 0) 8 4) (cond (bit (value_in env pool.old address) 0) 2 1) }
    ensures net { Is pool.new result 4 4 }
    ensures scope { (s : Scope) → IsIn s pool.old address → IsIn s pool.new result }
    ensures step { Step pool.old pool.new 9 }
{
    let high = slice(pool, address, 1, 1);
    let low = slice(pool, address, 0, 0);
    let third = lit(pool, 4, 8);
    let second = lit(pool, 4, 4);
    let first = lit(pool, 4, 2);
    let lowest = lit(pool, 4, 1);
    let above = mux(pool, low, third, second);
    let below = mux(pool, low, first, lowest);
    mux(pool, high, above, below)
}

/// The lanes of the half at an address, as a mask.
fn half_lanes(pool: &mut Pool, address: Net) -> Net
    requires spare { 4 ≤ pool.old.spare }
    requires address { Is pool.old address 32 4 }
    ensures value { (env : Env) → value_in env pool.new result ≡ cond (bit (value_in env pool.old address) 1) 12 3 }
    ensures net { Is pool.new result 4 4 }
    ensures scope { (s : Scope) → IsIn s pool.old address → IsIn s pool.new result }
    ensures step { Step pool.old pool.new 4 }
{
    let high = slice(pool, address, 1, 1);
    let above = lit(pool, 4, 12);
    let below = lit(pool, 4, 3);
    mux(pool, high, above, below)
}

/// The mask of an access, of 4 bits: the lanes of a store, and 0 for a load.
#[tactic(auto, unfolding(crate::specs::Machine::mask_at, dbus_law::specs::Words::kind_of))]
pub(crate) fn access_mask(pool: &mut Pool, word: Net, address: Net) -> Net
    requires spare { 21 ≤ pool.old.spare }
    requires word { Is pool.old word 32 4 }
    requires address { Is pool.old address 32 4 }
    ensures value { (env : Env) → value_in env pool.new result ≡ mask_at (value_in env pool.old word) (value_in env pool.old address) }
    ensures net { Is pool.new result 4 4 }
    ensures scope { (s : Scope) → IsIn s pool.old word → IsIn s pool.old address → IsIn s pool.new result }
    ensures step { Step pool.old pool.new 21 }
{
    let of_byte = byte_lane(pool, address);
    let of_half = half_lanes(pool, address);
    let store = slice(pool, word, 5, 5);
    let is_half = slice(pool, word, 12, 12);
    let is_whole = slice(pool, word, 13, 13);
    let all = lit(pool, 4, 15);
    let none = lit(pool, 4, 0);
    let part = mux(pool, is_half, of_half, of_byte);
    let lanes = mux(pool, is_whole, all, part);
    mux(pool, store, lanes, none)
}

/// The lowest byte of a number of 32 bits, four times.
fn four_bytes(pool: &mut Pool, b: Net) -> Net
    requires spare { 4 ≤ pool.old.spare }
    requires b { Is pool.old b 32 4 }
    ensures value { (env : Env) → value_in env pool.new result ≡ byte_spread (value_in env pool.old b) }
    ensures net { Is pool.new result 32 4 }
    ensures scope { (s : Scope) → IsIn s pool.old b → IsIn s pool.new result }
    ensures step { Step pool.old pool.new 4 }
{
    let byte = slice(pool, b, 7, 0);
    let two = cat(pool, byte, byte);
    let three = cat(pool, byte, two);
    cat(pool, byte, three)
}

/// The lower half of a number of 32 bits, twice.
fn two_halves(pool: &mut Pool, b: Net) -> Net
    requires spare { 2 ≤ pool.old.spare }
    requires b { Is pool.old b 32 4 }
    ensures value { (env : Env) → value_in env pool.new result ≡ half_spread (value_in env pool.old b) }
    ensures net { Is pool.new result 32 4 }
    ensures scope { (s : Scope) → IsIn s pool.old b → IsIn s pool.new result }
    ensures step { Step pool.old pool.new 2 }
{
    let half = slice(pool, b, 15, 0);
    cat(pool, half, half)
}

/// The value of a store in all lanes, of 32 bits, from its word and the value of register rs2.
#[tactic(auto, unfolding(dbus_law::specs::Words::spread_of, dbus_law::specs::Words::kind_of))]
pub(crate) fn spread(pool: &mut Pool, word: Net, b: Net) -> Net
    requires spare { 10 ≤ pool.old.spare }
    requires word { Is pool.old word 32 4 }
    requires b { Is pool.old b 32 4 }
    ensures value { (env : Env) → value_in env pool.new result ≡ spread_of (value_in env pool.old word) (value_in env pool.old b) }
    ensures net { Is pool.new result 32 4 }
    ensures scope { (s : Scope) → IsIn s pool.old word → IsIn s pool.old b → IsIn s pool.new result }
    ensures step { Step pool.old pool.new 10 }
{
    let of_byte = four_bytes(pool, b);
    let of_half = two_halves(pool, b);
    let is_half = slice(pool, word, 12, 12);
    let is_whole = slice(pool, word, 13, 13);
    let part = mux(pool, is_half, of_half, of_byte);
    mux(pool, is_whole, b, part)
}
