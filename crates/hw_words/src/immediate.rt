ghost use Rattle.std.specs.Prelude.{◌≡◌, ℕ, ◌≤◌};
ghost use Rattle.core_words.specs.Fields.{imm_b, imm_i, imm_j, imm_s, imm_u};
ghost use Rattle.hw_pool.specs.Meaning.{Env};
ghost use Rattle.hw_pool.specs.Scope.{Scope};
ghost use Rattle.hw_gates.specs.Places.{Has, IsIn, Step, value_in};

use crate::copies;
use hw_expr::Net;
use hw_gates::{cat, lit, slice};
use hw_pool::Pool;

/// The immediate of the I format.
#[tactic(auto, using(crate::proofs::Immediates::imm_i_is))]
pub fn immediate_i(pool: &mut Pool, word: Net) -> Net
    requires spare { 6 ≤ pool.old.spare }
    requires word { Has pool.old word }
    requires width { word.width ≡ 32 }
    ensures value { (env : Env) → value_in env pool.new result ≡ imm_i (value_in env pool.old word) }
    ensures net { Has pool.new result }
    ensures scope { (s : Scope) → IsIn s pool.old word → IsIn s pool.new result }
    ensures width { result.width ≡ 32 }
    ensures level { result.level ≤ word.level }
    ensures step { Step pool.old pool.new 6 }
{
    let low = slice(pool, word, 31, 20);
    let sign = slice(pool, word, 31, 31);
    let above = copies(pool, sign, 20);
    cat(pool, above, low)
}

/// The immediate of the S format.
#[tactic(auto, using(crate::proofs::Immediates::imm_s_is))]
pub fn immediate_s(pool: &mut Pool, word: Net) -> Net
    requires spare { 8 ≤ pool.old.spare }
    requires word { Has pool.old word }
    requires width { word.width ≡ 32 }
    ensures value { (env : Env) → value_in env pool.new result ≡ imm_s (value_in env pool.old word) }
    ensures net { Has pool.new result }
    ensures scope { (s : Scope) → IsIn s pool.old word → IsIn s pool.new result }
    ensures width { result.width ≡ 32 }
    ensures level { result.level ≤ word.level }
    ensures step { Step pool.old pool.new 8 }
{
    let high = slice(pool, word, 31, 25);
    let last = slice(pool, word, 11, 7);
    let low = cat(pool, high, last);
    let sign = slice(pool, word, 31, 31);
    let above = copies(pool, sign, 20);
    cat(pool, above, low)
}

/// The immediate of the U format.
#[tactic(auto, using(crate::proofs::Immediates::imm_u_is))]
pub fn immediate_u(pool: &mut Pool, word: Net) -> Net
    requires spare { 3 ≤ pool.old.spare }
    requires word { Has pool.old word }
    requires width { word.width ≡ 32 }
    ensures value { (env : Env) → value_in env pool.new result ≡ imm_u (value_in env pool.old word) }
    ensures net { Has pool.new result }
    ensures scope { (s : Scope) → IsIn s pool.old word → IsIn s pool.new result }
    ensures width { result.width ≡ 32 }
    ensures level { result.level ≤ word.level }
    ensures step { Step pool.old pool.new 3 }
{
    let high = slice(pool, word, 31, 12);
    let low = lit(pool, 12, 0);
    cat(pool, high, low)
}

/// The immediate of the B format.
#[tactic(auto, using(crate::proofs::Immediates::imm_b_is))]
pub fn immediate_b(pool: &mut Pool, word: Net) -> Net
    requires spare { 13 ≤ pool.old.spare }
    requires word { Has pool.old word }
    requires width { word.width ≡ 32 }
    ensures value { (env : Env) → value_in env pool.new result ≡ imm_b (value_in env pool.old word) }
    ensures net { Has pool.new result }
    ensures scope { (s : Scope) → IsIn s pool.old word → IsIn s pool.new result }
    ensures width { result.width ≡ 32 }
    ensures level { result.level ≤ word.level }
    ensures step { Step pool.old pool.new 13 }
{
    let top = slice(pool, word, 7, 7);
    let middle = slice(pool, word, 30, 25);
    let low = slice(pool, word, 11, 8);
    let sign = slice(pool, word, 31, 31);
    let above = copies(pool, sign, 19);
    let zero = lit(pool, 1, 0);
    let last = cat(pool, low, zero);
    let second = cat(pool, middle, last);
    let third = cat(pool, top, second);
    let fourth = cat(pool, sign, third);
    cat(pool, above, fourth)
}

/// The immediate of the J format.
#[tactic(auto, using(crate::proofs::Immediates::imm_j_is))]
pub fn immediate_j(pool: &mut Pool, word: Net) -> Net
    requires spare { 13 ≤ pool.old.spare }
    requires word { Has pool.old word }
    requires width { word.width ≡ 32 }
    ensures value { (env : Env) → value_in env pool.new result ≡ imm_j (value_in env pool.old word) }
    ensures net { Has pool.new result }
    ensures scope { (s : Scope) → IsIn s pool.old word → IsIn s pool.new result }
    ensures width { result.width ≡ 32 }
    ensures level { result.level ≤ word.level }
    ensures step { Step pool.old pool.new 13 }
{
    let top = slice(pool, word, 19, 12);
    let middle = slice(pool, word, 20, 20);
    let low = slice(pool, word, 30, 21);
    let sign = slice(pool, word, 31, 31);
    let above = copies(pool, sign, 11);
    let zero = lit(pool, 1, 0);
    let last = cat(pool, low, zero);
    let second = cat(pool, middle, last);
    let third = cat(pool, top, second);
    let fourth = cat(pool, sign, third);
    cat(pool, above, fourth)
}
