ghost use Rattle.std.specs.Prelude.{◌≡◌, ℕ, ◌≤◌, bit_and};
ghost use Rattle.hw_pool.specs.Meaning.{Env};
ghost use Rattle.hw_pool.specs.Scope.{Scope};
ghost use Rattle.hw_gates.specs.Places.{Is, IsIn, Step, value_in};
ghost use Rattle.csr_nets.specs.Machine.{
  cause_by,
  enters_by,
  epc_by,
  on_by,
  outer_by,
  own_by,
  scratch_by,
  soft_by,
  timer_by,
  tval_by,
  tvec_by,
  was_by,
  written_by,
};
ghost use Rattle.csr_nets.specs.Nets.{
  AreChanges,
  AreChangesIn,
  AreHits,
  AreHitsIn,
  AreNexts,
  AreNextsIn,
  IsHeld,
  IsHeldIn,
  IsKind,
  IsKindIn,
  IsTold,
  IsToldIn,
  changes_in,
  held_in,
  hits_in,
  told_in,
};

use crate::form::Kind;
use crate::number::Hits;
use crate::unit::{Held, Told};
use hw_expr::Net;
use hw_gates::{and, eq, lit, mux, not, slice};
use hw_pool::Pool;

/// What changes the registers, one bit each: an event enters the handler, an MRET leaves it, and a CSR access writes.
#[derive(Clone, Copy, Debug)]
pub struct Changes {
    pub enters: Net,
    pub leaves: Net,
    pub writes: Net,
}

/// The next values of the registers.
#[derive(Clone, Copy, Debug)]
pub struct Nexts {
    pub on: Net,
    pub was: Net,
    pub soft: Net,
    pub timer: Net,
    pub outer: Net,
    pub tvec: Net,
    pub epc: Net,
    pub scratch: Net,
    pub cause: Net,
    pub tval: Net,
}

/// One bit: the unit's own effect takes place.
#[tactic(auto, unfolding(crate::specs::Machine::own_by))]
fn own(pool: &mut Pool, done: Net, trap: Net, clear: Net) -> Net
    requires spare { 4 ≤ pool.old.spare }
    requires done { Is pool.old done 1 8 }
    requires trap { Is pool.old trap 1 8 }
    requires clear { Is pool.old clear 1 8 }
    ensures value { (env : Env) → value_in env pool.new result ≡ own_by (value_in env pool.old done) (value_in env pool.old trap) (value_in env pool.old clear) }
    ensures net { Is pool.new result 1 8 }
    ensures scope { (s : Scope) → IsIn s pool.old done → IsIn s pool.old trap → IsIn s pool.old clear → IsIn s pool.new result }
    ensures step { Step pool.old pool.new 4 }
{
    let fine = not(pool, trap);
    let kept = not(pool, clear);
    let stands = and(pool, fine, kept);
    and(pool, done, stands)
}

/// One bit: an event enters the handler.
#[tactic(auto, unfolding(crate::specs::Machine::enters_by))]
fn entering(pool: &mut Pool, event: Net, kind: Net) -> Net
    requires spare { 4 ≤ pool.old.spare }
    requires event { Is pool.old event 1 8 }
    requires kind { Is pool.old kind 2 8 }
    ensures value { (env : Env) → value_in env pool.new result ≡ enters_by (value_in env pool.old event) (value_in env pool.old kind) }
    ensures net { Is pool.new result 1 8 }
    ensures scope { (s : Scope) → IsIn s pool.old event → IsIn s pool.old kind → IsIn s pool.new result }
    ensures step { Step pool.old pool.new 4 }
{
    let retirement = lit(pool, 2, 0);
    let retires = eq(pool, kind, retirement);
    let other = not(pool, retires);
    and(pool, event, other)
}

/// What changes the registers.
#[tactic(auto, using(hw_gates::proofs::Plain::plain))]
pub(crate) fn change_nets(
    pool: &mut Pool,
    done: Net,
    trap: Net,
    clear: Net,
    k: Kind,
    t: Told,
) -> Changes
    requires spare { 11 ≤ pool.old.spare }
    requires done { Is pool.old done 1 8 }
    requires trap { Is pool.old trap 1 8 }
    requires clear { Is pool.old clear 1 8 }
    requires k { IsKind pool.old k }
    requires t { IsTold pool.old t }
    ensures enters { (env : Env) → value_in env pool.new result.enters ≡ enters_by (value_in env pool.old t.event) (value_in env pool.old t.kind) }
    ensures leaves { (env : Env) → value_in env pool.new result.leaves ≡ bit_and (own_by (value_in env pool.old done) (value_in env pool.old trap) (value_in env pool.old clear)) (value_in env pool.old k.returns) }
    ensures writes { (env : Env) → value_in env pool.new result.writes ≡ bit_and (own_by (value_in env pool.old done) (value_in env pool.old trap) (value_in env pool.old clear)) (bit_and (value_in env pool.old k.access) (value_in env pool.old k.writes)) }
    ensures nets { AreChanges pool.new result }
    ensures scope { (s : Scope) → IsIn s pool.old done → IsIn s pool.old trap → IsIn s pool.old clear → IsKindIn s pool.old k → IsToldIn s pool.old t → AreChangesIn s pool.new result }
    ensures step { Step pool.old pool.new 11 }
{
    let own = own(pool, done, trap, clear);
    let enters = entering(pool, t.event, t.kind);
    let leaves = and(pool, own, k.returns);
    let access = and(pool, k.access, k.writes);
    let writes = and(pool, own, access);
    Changes {
        enters,
        leaves,
        writes,
    }
}

/// What a register holds next that an access writes where both bits are 1.
fn written(pool: &mut Pool, writes: Net, hit: Net, new: Net, held: Net) -> Net
    requires spare { 2 ≤ pool.old.spare }
    requires writes { Is pool.old writes 1 8 }
    requires hit { Is pool.old hit 1 8 }
    requires new { Is pool.old new held.width 8 }
    requires held { Is pool.old held held.width 8 }
    ensures value { (env : Env) → value_in env pool.new result ≡ written_by (value_in env pool.old writes) (value_in env pool.old hit) (value_in env pool.old new) (value_in env pool.old held) }
    ensures net { Is pool.new result held.width 8 }
    ensures scope { (s : Scope) → IsIn s pool.old writes → IsIn s pool.old hit → IsIn s pool.old new → IsIn s pool.old held → IsIn s pool.new result }
    ensures step { Step pool.old pool.new 2 }
{
    let is_its = and(pool, writes, hit);
    mux(pool, is_its, new, held)
}

/// The next value of MIE.
#[tactic(auto, unfolding(crate::specs::Machine::on_by), using(hw_gates::proofs::Plain::plain))]
fn on_net(pool: &mut Pool, x: Changes, h: Hits, r: Held, t: Told, new: Net) -> Net
    requires spare { 6 ≤ pool.old.spare }
    requires x { AreChanges pool.old x }
    requires h { AreHits pool.old h }
    requires r { IsHeld pool.old r }
    requires t { IsTold pool.old t }
    requires new { Is pool.old new 32 8 }
    ensures value { (env : Env) → value_in env pool.new result ≡ on_by (changes_in env pool.old x) (hits_in env pool.old h) (held_in env pool.old r) (told_in env pool.old t) (value_in env pool.old new) }
    ensures net { Is pool.new result 1 8 }
    ensures scope { (s : Scope) → AreChangesIn s pool.old x → AreHitsIn s pool.old h → IsHeldIn s pool.old r → IsToldIn s pool.old t → IsIn s pool.old new → IsIn s pool.new result }
    ensures step { Step pool.old pool.new 6 }
{
    let bit = slice(pool, new, 3, 3);
    let on_written = written(pool, x.writes, h.status, bit, r.on);
    let on_left = mux(pool, x.leaves, r.was, on_written);
    let off = lit(pool, 1, 0);
    mux(pool, x.enters, off, on_left)
}

/// The next value of MPIE.
#[tactic(auto, unfolding(crate::specs::Machine::was_by), using(hw_gates::proofs::Plain::plain))]
fn was_net(pool: &mut Pool, x: Changes, h: Hits, r: Held, t: Told, new: Net) -> Net
    requires spare { 6 ≤ pool.old.spare }
    requires x { AreChanges pool.old x }
    requires h { AreHits pool.old h }
    requires r { IsHeld pool.old r }
    requires t { IsTold pool.old t }
    requires new { Is pool.old new 32 8 }
    ensures value { (env : Env) → value_in env pool.new result ≡ was_by (changes_in env pool.old x) (hits_in env pool.old h) (held_in env pool.old r) (told_in env pool.old t) (value_in env pool.old new) }
    ensures net { Is pool.new result 1 8 }
    ensures scope { (s : Scope) → AreChangesIn s pool.old x → AreHitsIn s pool.old h → IsHeldIn s pool.old r → IsToldIn s pool.old t → IsIn s pool.old new → IsIn s pool.new result }
    ensures step { Step pool.old pool.new 6 }
{
    let bit = slice(pool, new, 7, 7);
    let was_written = written(pool, x.writes, h.status, bit, r.was);
    let set = lit(pool, 1, 1);
    let was_left = mux(pool, x.leaves, set, was_written);
    mux(pool, x.enters, r.on, was_left)
}

/// The next values of the bits of mie.
#[tactic(auto, unfolding(crate::specs::Machine::soft_by, crate::specs::Machine::timer_by, crate::specs::Machine::outer_by), using(hw_gates::proofs::Plain::plain))]
fn enable_nets(pool: &mut Pool, x: Changes, h: Hits, r: Held, t: Told, new: Net) -> (Net, Net, Net)
    requires spare { 9 ≤ pool.old.spare }
    requires x { AreChanges pool.old x }
    requires h { AreHits pool.old h }
    requires r { IsHeld pool.old r }
    requires t { IsTold pool.old t }
    requires new { Is pool.old new 32 8 }
    ensures soft { (env : Env) → value_in env pool.new result.0 ≡ soft_by (changes_in env pool.old x) (hits_in env pool.old h) (held_in env pool.old r) (told_in env pool.old t) (value_in env pool.old new) }
    ensures timer { (env : Env) → value_in env pool.new result.1 ≡ timer_by (changes_in env pool.old x) (hits_in env pool.old h) (held_in env pool.old r) (told_in env pool.old t) (value_in env pool.old new) }
    ensures outer { (env : Env) → value_in env pool.new result.2 ≡ outer_by (changes_in env pool.old x) (hits_in env pool.old h) (held_in env pool.old r) (told_in env pool.old t) (value_in env pool.old new) }
    ensures nets { Is pool.new result.0 1 8 × Is pool.new result.1 1 8 × Is pool.new result.2 1 8 }
    ensures scope { (s : Scope) → AreChangesIn s pool.old x → AreHitsIn s pool.old h → IsHeldIn s pool.old r → IsToldIn s pool.old t → IsIn s pool.old new → IsIn s pool.new result.0 × IsIn s pool.new result.1 × IsIn s pool.new result.2 }
    ensures step { Step pool.old pool.new 9 }
{
    let bit_3 = slice(pool, new, 3, 3);
    let soft = written(pool, x.writes, h.enables, bit_3, r.soft);
    let bit_7 = slice(pool, new, 7, 7);
    let timer = written(pool, x.writes, h.enables, bit_7, r.timer);
    let bit_11 = slice(pool, new, 11, 11);
    let outer = written(pool, x.writes, h.enables, bit_11, r.outer);
    (soft, timer, outer)
}

/// The next values of mtvec and mepc.
#[tactic(auto, unfolding(crate::specs::Machine::tvec_by, crate::specs::Machine::epc_by), using(hw_gates::proofs::Plain::plain))]
fn address_nets(pool: &mut Pool, x: Changes, h: Hits, r: Held, t: Told, new: Net) -> (Net, Net)
    requires spare { 7 ≤ pool.old.spare }
    requires x { AreChanges pool.old x }
    requires h { AreHits pool.old h }
    requires r { IsHeld pool.old r }
    requires t { IsTold pool.old t }
    requires new { Is pool.old new 32 8 }
    ensures tvec { (env : Env) → value_in env pool.new result.0 ≡ tvec_by (changes_in env pool.old x) (hits_in env pool.old h) (held_in env pool.old r) (told_in env pool.old t) (value_in env pool.old new) }
    ensures epc { (env : Env) → value_in env pool.new result.1 ≡ epc_by (changes_in env pool.old x) (hits_in env pool.old h) (held_in env pool.old r) (told_in env pool.old t) (value_in env pool.old new) }
    ensures nets { Is pool.new result.0 30 8 × Is pool.new result.1 30 8 }
    ensures scope { (s : Scope) → AreChangesIn s pool.old x → AreHitsIn s pool.old h → IsHeldIn s pool.old r → IsToldIn s pool.old t → IsIn s pool.old new → IsIn s pool.new result.0 × IsIn s pool.new result.1 }
    ensures step { Step pool.old pool.new 7 }
{
    let above = slice(pool, new, 31, 2);
    let tvec = written(pool, x.writes, h.vector, above, r.tvec);
    let epc_written = written(pool, x.writes, h.epc, above, r.epc);
    let told = slice(pool, t.pc, 31, 2);
    let epc = mux(pool, x.enters, told, epc_written);
    (tvec, epc)
}

/// The next values of mscratch, mcause and mtval.
#[tactic(auto, unfolding(crate::specs::Machine::scratch_by, crate::specs::Machine::cause_by, crate::specs::Machine::tval_by), using(hw_gates::proofs::Plain::plain))]
fn word_nets(pool: &mut Pool, x: Changes, h: Hits, r: Held, t: Told, new: Net) -> (Net, Net, Net)
    requires spare { 8 ≤ pool.old.spare }
    requires x { AreChanges pool.old x }
    requires h { AreHits pool.old h }
    requires r { IsHeld pool.old r }
    requires t { IsTold pool.old t }
    requires new { Is pool.old new 32 8 }
    ensures scratch { (env : Env) → value_in env pool.new result.0 ≡ scratch_by (changes_in env pool.old x) (hits_in env pool.old h) (held_in env pool.old r) (told_in env pool.old t) (value_in env pool.old new) }
    ensures cause { (env : Env) → value_in env pool.new result.1 ≡ cause_by (changes_in env pool.old x) (hits_in env pool.old h) (held_in env pool.old r) (told_in env pool.old t) (value_in env pool.old new) }
    ensures tval { (env : Env) → value_in env pool.new result.2 ≡ tval_by (changes_in env pool.old x) (hits_in env pool.old h) (held_in env pool.old r) (told_in env pool.old t) (value_in env pool.old new) }
    ensures nets { Is pool.new result.0 32 8 × Is pool.new result.1 32 8 × Is pool.new result.2 32 8 }
    ensures scope { (s : Scope) → AreChangesIn s pool.old x → AreHitsIn s pool.old h → IsHeldIn s pool.old r → IsToldIn s pool.old t → IsIn s pool.old new → IsIn s pool.new result.0 × IsIn s pool.new result.1 × IsIn s pool.new result.2 }
    ensures step { Step pool.old pool.new 8 }
{
    let scratch = written(pool, x.writes, h.scratch, new, r.scratch);
    let cause_written = written(pool, x.writes, h.cause, new, r.cause);
    let cause = mux(pool, x.enters, t.cause, cause_written);
    let tval_written = written(pool, x.writes, h.tval, new, r.tval);
    let tval = mux(pool, x.enters, t.tval, tval_written);
    (scratch, cause, tval)
}

/// The next values of the registers.
#[tactic(auto, using(hw_gates::proofs::Plain::plain))]
pub(crate) fn next_nets(pool: &mut Pool, x: Changes, h: Hits, r: Held, t: Told, new: Net) -> Nexts
    requires spare { 36 ≤ pool.old.spare }
    requires x { AreChanges pool.old x }
    requires h { AreHits pool.old h }
    requires r { IsHeld pool.old r }
    requires t { IsTold pool.old t }
    requires new { Is pool.old new 32 8 }
    ensures on { (env : Env) → value_in env pool.new result.on ≡ on_by (changes_in env pool.old x) (hits_in env pool.old h) (held_in env pool.old r) (told_in env pool.old t) (value_in env pool.old new) }
    ensures was { (env : Env) → value_in env pool.new result.was ≡ was_by (changes_in env pool.old x) (hits_in env pool.old h) (held_in env pool.old r) (told_in env pool.old t) (value_in env pool.old new) }
    ensures soft { (env : Env) → value_in env pool.new result.soft ≡ soft_by (changes_in env pool.old x) (hits_in env pool.old h) (held_in env pool.old r) (told_in env pool.old t) (value_in env pool.old new) }
    ensures timer { (env : Env) → value_in env pool.new result.timer ≡ timer_by (changes_in env pool.old x) (hits_in env pool.old h) (held_in env pool.old r) (told_in env pool.old t) (value_in env pool.old new) }
    ensures outer { (env : Env) → value_in env pool.new result.outer ≡ outer_by (changes_in env pool.old x) (hits_in env pool.old h) (held_in env pool.old r) (told_in env pool.old t) (value_in env pool.old new) }
    ensures tvec { (env : Env) → value_in env pool.new result.tvec ≡ tvec_by (changes_in env pool.old x) (hits_in env pool.old h) (held_in env pool.old r) (told_in env pool.old t) (value_in env pool.old new) }
    ensures epc { (env : Env) → value_in env pool.new result.epc ≡ epc_by (changes_in env pool.old x) (hits_in env pool.old h) (held_in env pool.old r) (told_in env pool.old t) (value_in env pool.old new) }
    ensures scratch { (env : Env) → value_in env pool.new result.scratch ≡ scratch_by (changes_in env pool.old x) (hits_in env pool.old h) (held_in env pool.old r) (told_in env pool.old t) (value_in env pool.old new) }
    ensures cause { (env : Env) → value_in env pool.new result.cause ≡ cause_by (changes_in env pool.old x) (hits_in env pool.old h) (held_in env pool.old r) (told_in env pool.old t) (value_in env pool.old new) }
    ensures tval { (env : Env) → value_in env pool.new result.tval ≡ tval_by (changes_in env pool.old x) (hits_in env pool.old h) (held_in env pool.old r) (told_in env pool.old t) (value_in env pool.old new) }
    ensures nets { AreNexts pool.new result }
    ensures scope { (s : Scope) → AreChangesIn s pool.old x → AreHitsIn s pool.old h → IsHeldIn s pool.old r → IsToldIn s pool.old t → IsIn s pool.old new → AreNextsIn s pool.new result }
    ensures step { Step pool.old pool.new 36 }
{
    let on = on_net(pool, x, h, r, t, new);
    let was = was_net(pool, x, h, r, t, new);
    let (soft, timer, outer) = enable_nets(pool, x, h, r, t, new);
    let (tvec, epc) = address_nets(pool, x, h, r, t, new);
    let (scratch, cause, tval) = word_nets(pool, x, h, r, t, new);
    Nexts {
        on,
        was,
        soft,
        timer,
        outer,
        tvec,
        epc,
        scratch,
        cause,
        tval,
    }
}
