ghost use Rattle.std.specs.Prelude.{◌≡◌, ℕ, ◌≤◌, ◌<◌, ◌^◌, bit_or};
ghost use Rattle.core_words.specs.Values.{choose, join_of};
ghost use Rattle.hw_pool.specs.Meaning.{Env};
ghost use Rattle.hw_pool.specs.Scope.{Scope};
ghost use Rattle.hw_gates.specs.Places.{Is, IsIn, Step, value_in};
ghost use Rattle.csr_nets.specs.Machine.{old_by, places_by, rest_by, status_by, whole_by};
ghost use Rattle.csr_nets.specs.Nets.{AreHits, AreHitsIn, AreLines, AreLinesIn, IsHeld, IsHeldIn, held_in, hits_in, lines_in};

use crate::number::Hits;
use crate::unit::{Held, Lines};
use hw_expr::Net;
use hw_gates::{cat, lit, mux, or};
use hw_pool::Pool;

/// mstatus as it is read, of 32 bits.
#[tactic(auto, unfolding(crate::specs::Machine::status_by))]
fn status(pool: &mut Pool, on: Net, was: Net) -> Net
    requires spare { 7 ≤ pool.old.spare }
    requires on { Is pool.old on 1 4 }
    requires was { Is pool.old was 1 4 }
    ensures value { (env : Env) → value_in env pool.new result ≡ status_by (value_in env pool.old on) (value_in env pool.old was) }
    ensures net { Is pool.new result 32 4 }
    ensures scope { (s : Scope) → IsIn s pool.old on → IsIn s pool.old was → IsIn s pool.new result }
    ensures step { Step pool.old pool.new 7 }
{
    let zeros = lit(pool, 3, 0);
    let mode = lit(pool, 21, 3);
    let low = cat(pool, on, zeros);
    let above_low = cat(pool, zeros, low);
    let high = cat(pool, was, above_low);
    let above_high = cat(pool, zeros, high);
    cat(pool, mode, above_high)
}

/// The lower eight bits of that, for the bits of software and timer interrupts; `zeros` are three zeros.
fn lower_places(pool: &mut Pool, zeros: Net, soft: Net, timer: Net) -> Net
    requires spare { 3 ≤ pool.old.spare }
    requires zeros { Is pool.old zeros 3 4 }
    requires soft { Is pool.old soft 1 4 }
    requires timer { Is pool.old timer 1 4 }
    ensures value { (env : Env) → value_in env pool.new result ≡ join_of 7 (value_in env pool.old timer) (join_of 4 (value_in env pool.old zeros) (join_of 3 (value_in env pool.old soft) (value_in env pool.old zeros))) }
    ensures net { Is pool.new result 8 4 }
    ensures scope { (s : Scope) → IsIn s pool.old zeros → IsIn s pool.old soft → IsIn s pool.old timer → IsIn s pool.new result }
    ensures step { Step pool.old pool.new 3 }
{
    let low = cat(pool, soft, zeros);
    let above_low = cat(pool, zeros, low);
    cat(pool, timer, above_low)
}

/// Three bits at their places in mie and mip, of 32 bits.
#[tactic(auto, unfolding(crate::specs::Machine::places_by))]
fn places(pool: &mut Pool, soft: Net, timer: Net, outer: Net) -> Net
    requires spare { 8 ≤ pool.old.spare }
    requires soft { Is pool.old soft 1 4 }
    requires timer { Is pool.old timer 1 4 }
    requires outer { Is pool.old outer 1 4 }
    ensures value { (env : Env) → value_in env pool.new result ≡ places_by (value_in env pool.old soft) (value_in env pool.old timer) (value_in env pool.old outer) }
    ensures net { Is pool.new result 32 4 }
    ensures scope { (s : Scope) → IsIn s pool.old soft → IsIn s pool.old timer → IsIn s pool.old outer → IsIn s pool.new result }
    ensures step { Step pool.old pool.new 8 }
{
    let zeros = lit(pool, 3, 0);
    let above = lit(pool, 20, 0);
    let lower = lower_places(pool, zeros, soft, timer);
    let above_lower = cat(pool, zeros, lower);
    let high = cat(pool, outer, above_lower);
    cat(pool, above, high)
}

/// An address of 32 bits, by all but its low two bits.
#[tactic(auto, unfolding(crate::specs::Machine::whole_by))]
pub(crate) fn whole(pool: &mut Pool, above: Net) -> Net
    requires spare { 2 ≤ pool.old.spare }
    requires above { Is pool.old above 30 4 }
    ensures value { (env : Env) → value_in env pool.new result ≡ whole_by (value_in env pool.old above) }
    ensures net { Is pool.new result 32 4 }
    ensures scope { (s : Scope) → IsIn s pool.old above → IsIn s pool.new result }
    ensures step { Step pool.old pool.new 2 }
{
    let zeros = lit(pool, 2, 0);
    cat(pool, above, zeros)
}

/// A value of 32 bits where the bit is 1, else 0.
fn masked(pool: &mut Pool, hit: Net, value: Net) -> Net
    requires spare { 2 ≤ pool.old.spare }
    requires hit { Is pool.old hit 1 4 }
    requires value { Is pool.old value 32 4 }
    ensures value { (env : Env) → value_in env pool.new result ≡ choose (value_in env pool.old hit) (value_in env pool.old value) 0 }
    ensures net { Is pool.new result 32 4 }
    ensures scope { (s : Scope) → IsIn s pool.old hit → IsIn s pool.old value → IsIn s pool.new result }
    ensures step { Step pool.old pool.new 2 }
{
    let zero = lit(pool, 32, 0);
    mux(pool, hit, value, zero)
}

/// A value where the bit is 1, over what is gathered so far.
fn gathered(pool: &mut Pool, hit: Net, value: Net, rest: Net) -> Net
    requires spare { 3 ≤ pool.old.spare }
    requires hit { Is pool.old hit 1 4 }
    requires value { Is pool.old value 32 4 }
    requires rest { Is pool.old rest 32 4 }
    ensures value { (env : Env) → value_in env pool.new result ≡ bit_or (choose (value_in env pool.old hit) (value_in env pool.old value) 0) (value_in env pool.old rest) }
    ensures net { Is pool.new result 32 4 }
    ensures scope { (s : Scope) → IsIn s pool.old hit → IsIn s pool.old value → IsIn s pool.old rest → IsIn s pool.new result }
    ensures step { Step pool.old pool.new 3 }
{
    let mask = masked(pool, hit, value);
    or(pool, mask, rest)
}

/// The value read of mscratch, mepc, mcause, mtval and mip, 0 of the others.
#[tactic(auto, unfolding(crate::specs::Machine::rest_by), using(hw_gates::proofs::Plain::plain))]
fn rest(pool: &mut Pool, h: Hits, r: Held, l: Lines) -> Net
    requires spare { 24 ≤ pool.old.spare }
    requires h { AreHits pool.old h }
    requires r { IsHeld pool.old r }
    requires l { AreLines pool.old l }
    ensures value { (env : Env) → value_in env pool.new result ≡ rest_by (hits_in env pool.old h) (held_in env pool.old r) (lines_in env pool.old l) }
    ensures net { Is pool.new result 32 4 }
    ensures scope { (s : Scope) → AreHitsIn s pool.old h → IsHeldIn s pool.old r → AreLinesIn s pool.old l → IsIn s pool.new result }
    ensures step { Step pool.old pool.new 24 }
{
    let lines = places(pool, l.soft, l.timer, l.outer);
    let pending = masked(pool, h.pending, lines);
    let from_tval = gathered(pool, h.tval, r.tval, pending);
    let from_cause = gathered(pool, h.cause, r.cause, from_tval);
    let address = whole(pool, r.epc);
    let from_epc = gathered(pool, h.epc, address, from_cause);
    gathered(pool, h.scratch, r.scratch, from_epc)
}

/// The value read of mie and mtvec, or else `rest`.
#[tactic(auto, using(hw_gates::proofs::Plain::plain))]
fn lower_controls(pool: &mut Pool, rest: Net, h: Hits, r: Held) -> Net
    requires spare { 16 ≤ pool.old.spare }
    requires rest { Is pool.old rest 32 4 }
    requires h { AreHits pool.old h }
    requires r { IsHeld pool.old r }
    ensures value { (env : Env) → value_in env pool.new result ≡ bit_or (choose (value_in env pool.old h.enables) (places_by (value_in env pool.old r.soft) (value_in env pool.old r.timer) (value_in env pool.old r.outer)) 0) (bit_or (choose (value_in env pool.old h.vector) (whole_by (value_in env pool.old r.tvec)) 0) (value_in env pool.old rest)) }
    ensures net { Is pool.new result 32 4 }
    ensures scope { (s : Scope) → IsIn s pool.old rest → AreHitsIn s pool.old h → IsHeldIn s pool.old r → IsIn s pool.new result }
    ensures step { Step pool.old pool.new 16 }
{
    let address = whole(pool, r.tvec);
    let from_vector = gathered(pool, h.vector, address, rest);
    let places = places(pool, r.soft, r.timer, r.outer);
    gathered(pool, h.enables, places, from_vector)
}

/// The value read of mstatus, misa, mie and mtvec, or else `rest`.
#[tactic(auto, unfolding(crate::specs::Machine::old_by), using(hw_gates::proofs::Plain::plain))]
fn controls(pool: &mut Pool, misa: u64, rest: Net, h: Hits, r: Held) -> Net
    requires spare { 30 ≤ pool.old.spare }
    requires misa { misa < 2 ^ 32 }
    requires rest { Is pool.old rest 32 4 }
    requires h { AreHits pool.old h }
    requires r { IsHeld pool.old r }
    ensures value { (env : Env) → value_in env pool.new result ≡ old_by misa (value_in env pool.old rest) (hits_in env pool.old h) (held_in env pool.old r) }
    ensures net { Is pool.new result 32 4 }
    ensures scope { (s : Scope) → IsIn s pool.old rest → AreHitsIn s pool.old h → IsHeldIn s pool.old r → IsIn s pool.new result }
    ensures step { Step pool.old pool.new 30 }
{
    let from_enables = lower_controls(pool, rest, h, r);
    let constant = lit(pool, 32, misa);
    let from_isa = gathered(pool, h.isa, constant, from_enables);
    let status = status(pool, r.on, r.was);
    gathered(pool, h.status, status, from_isa)
}

/// The value that an access reads, of 32 bits.
#[tactic(auto, using(hw_gates::proofs::Plain::plain))]
pub(crate) fn old_value(pool: &mut Pool, misa: u64, h: Hits, r: Held, l: Lines) -> Net
    requires spare { 54 ≤ pool.old.spare }
    requires misa { misa < 2 ^ 32 }
    requires h { AreHits pool.old h }
    requires r { IsHeld pool.old r }
    requires l { AreLines pool.old l }
    ensures value { (env : Env) → value_in env pool.new result ≡ old_by misa (rest_by (hits_in env pool.old h) (held_in env pool.old r) (lines_in env pool.old l)) (hits_in env pool.old h) (held_in env pool.old r) }
    ensures net { Is pool.new result 32 4 }
    ensures scope { (s : Scope) → AreHitsIn s pool.old h → IsHeldIn s pool.old r → AreLinesIn s pool.old l → IsIn s pool.new result }
    ensures step { Step pool.old pool.new 54 }
{
    let rest = rest(pool, h, r, l);
    controls(pool, misa, rest, h, r)
}
