ghost use Rattle.std.specs.Prelude.{◌≡◌, ℕ, ◌≤◌, ◌<◌, ◌^◌};
ghost use Rattle.hw_pool.specs.Meaning.{Env};
ghost use Rattle.hw_pool.specs.Scope.{Scope};
ghost use Rattle.hw_gates.specs.Places.{Is, IsIn, Step, value_in};
ghost use Rattle.csr_nets.specs.Machine.{done_by, known_by, next_pc_by, trap_by};
ghost use Rattle.csr_nets.specs.Nets.{
  AreHits,
  AreHitsIn,
  AreOuts,
  AreOutsIn,
  IsCycle,
  IsCycleIn,
  IsGiven,
  IsGivenIn,
  IsKind,
  IsKindIn,
  IsShown,
  IsShownIn,
  ShowsUnit,
  given_in,
  hits_in,
  kind_in,
  seen_in,
};

use crate::after::{Nexts, change_nets, next_nets};
use crate::form::{Kind, kind_nets, new_value};
use crate::gather::{old_value, whole};
use crate::number::{Hits, known, named};
use crate::pending::{Interrupt, interrupt_nets};
use hw_expr::Net;
use hw_gates::{add, and, eq, lit, mux, not, or, slice};
use hw_pool::Pool;

/// What the registers hold: MIE and MPIE, the bits of mie for software, timer and external interrupts, mtvec and mepc without
/// their low two bits, mscratch, mcause and mtval.
#[derive(Clone, Copy, Debug)]
pub struct Held {
    pub on: Net,
    pub was: Net,
    pub soft: Net,
    pub timer: Net,
    pub outer: Net,
    pub tvec: Net,
    pub epc: Net,
    pub scratch: Net,
    pub cause: Net,
    pub tval: Net,
}

/// The interrupt lines, of one bit each.
#[derive(Clone, Copy, Debug)]
pub struct Lines {
    pub soft: Net,
    pub timer: Net,
    pub outer: Net,
}

/// What the unit is given: go and clear of one bit, the others of 32.
#[derive(Clone, Copy, Debug)]
pub struct Given {
    pub go: Net,
    pub pc: Net,
    pub word: Net,
    pub a: Net,
    pub clear: Net,
}

/// What the unit is told of an event: that there is one, its kind of two bits, and pc, cause and mtval of 32.
#[derive(Clone, Copy, Debug)]
pub struct Told {
    pub event: Net,
    pub kind: Net,
    pub pc: Net,
    pub cause: Net,
    pub tval: Net,
}

/// What is read in a cycle.
#[derive(Clone, Copy, Debug)]
pub struct Cycle {
    pub held: Held,
    pub lines: Lines,
    pub given: Given,
    pub told: Told,
}

/// The outputs of Exec but the value.
#[derive(Clone, Copy, Debug)]
pub struct Outs {
    pub done: Net,
    pub trap: Net,
    pub next_pc: Net,
    pub cause: Net,
    pub fence: Net,
}

/// What is made of a cycle; the value of Exec is the one that an access reads, of 32 bits.
#[derive(Clone, Copy, Debug)]
pub struct Shown {
    pub pending: Interrupt,
    pub outs: Outs,
    pub value: Net,
    pub nexts: Nexts,
}

/// One bit: the instruction is done.
#[tactic(auto, unfolding(crate::specs::Machine::done_by))]
fn done(pool: &mut Pool, go: Net, waits: Net, any: Net) -> Net
    requires spare { 3 ≤ pool.old.spare }
    requires go { Is pool.old go 1 4 }
    requires waits { Is pool.old waits 1 4 }
    requires any { Is pool.old any 1 4 }
    ensures value { (env : Env) → value_in env pool.new result ≡ done_by (value_in env pool.old go) (value_in env pool.old waits) (value_in env pool.old any) }
    ensures net { Is pool.new result 1 4 }
    ensures scope { (s : Scope) → IsIn s pool.old go → IsIn s pool.old waits → IsIn s pool.old any → IsIn s pool.new result }
    ensures step { Step pool.old pool.new 3 }
{
    let other = not(pool, waits);
    let may = or(pool, other, any);
    and(pool, go, may)
}

/// One bit: it is a CSR access that is refused.
#[tactic(auto, unfolding(crate::specs::Machine::trap_by, crate::specs::Machine::read_only_of))]
fn trap(pool: &mut Pool, word: Net, access: Net, writes: Net, known: Net) -> Net
    requires spare { 7 ≤ pool.old.spare }
    requires word { Is pool.old word 32 4 }
    requires access { Is pool.old access 1 4 }
    requires writes { Is pool.old writes 1 4 }
    requires known { Is pool.old known 1 4 }
    ensures value { (env : Env) → value_in env pool.new result ≡ trap_by (value_in env pool.old word) (value_in env pool.old access) (value_in env pool.old writes) (value_in env pool.old known) }
    ensures net { Is pool.new result 1 4 }
    ensures scope { (s : Scope) → IsIn s pool.old word → IsIn s pool.old access → IsIn s pool.old writes → IsIn s pool.old known → IsIn s pool.new result }
    ensures step { Step pool.old pool.new 7 }
{
    let high = slice(pool, word, 31, 30);
    let ones = lit(pool, 2, 3);
    let read_only = eq(pool, high, ones);
    let refused = and(pool, writes, read_only);
    let absent = not(pool, known);
    let illegal = or(pool, absent, refused);
    and(pool, access, illegal)
}

/// The address behind it: the one in mepc for an MRET.
#[tactic(auto, unfolding(crate::specs::Machine::next_pc_by))]
fn next_pc(pool: &mut Pool, returns: Net, epc: Net, pc: Net) -> Net
    requires spare { 5 ≤ pool.old.spare }
    requires returns { Is pool.old returns 1 4 }
    requires epc { Is pool.old epc 30 4 }
    requires pc { Is pool.old pc 32 4 }
    ensures value { (env : Env) → value_in env pool.new result ≡ next_pc_by (value_in env pool.old returns) (value_in env pool.old epc) (value_in env pool.old pc) }
    ensures net { Is pool.new result 32 4 }
    ensures scope { (s : Scope) → IsIn s pool.old returns → IsIn s pool.old epc → IsIn s pool.old pc → IsIn s pool.new result }
    ensures step { Step pool.old pool.new 5 }
{
    let address = whole(pool, epc);
    let four = lit(pool, 32, 4);
    let behind = add(pool, pc, four);
    mux(pool, returns, address, behind)
}

/// The outputs of Exec but the value.
#[tactic(auto, using(hw_gates::proofs::Plain::plain))]
fn out_nets(pool: &mut Pool, g: Given, epc: Net, any: Net, k: Kind, h: Hits) -> Outs
    requires spare { 26 ≤ pool.old.spare }
    requires g { IsGiven pool.old g }
    requires epc { Is pool.old epc 30 4 }
    requires any { Is pool.old any 1 4 }
    requires k { IsKind pool.old k }
    requires h { AreHits pool.old h }
    ensures done { (env : Env) → value_in env pool.new result.done ≡ done_by (value_in env pool.old g.go) (value_in env pool.old k.waits) (value_in env pool.old any) }
    ensures trap { (env : Env) → value_in env pool.new result.trap ≡ trap_by (value_in env pool.old g.word) (value_in env pool.old k.access) (value_in env pool.old k.writes) (known_by (hits_in env pool.old h)) }
    ensures next_pc { (env : Env) → value_in env pool.new result.next_pc ≡ next_pc_by (value_in env pool.old k.returns) (value_in env pool.old epc) (value_in env pool.old g.pc) }
    ensures cause { (env : Env) → value_in env pool.new result.cause ≡ 2 }
    ensures fence { (env : Env) → value_in env pool.new result.fence ≡ 0 }
    ensures nets { AreOuts pool.new result }
    ensures scope { (s : Scope) → IsGivenIn s pool.old g → IsIn s pool.old epc → IsIn s pool.old any → IsKindIn s pool.old k → AreHitsIn s pool.old h → AreOutsIn s pool.new result }
    ensures step { Step pool.old pool.new 26 }
{
    let done = done(pool, g.go, k.waits, any);
    let known = known(pool, h);
    let trap = trap(pool, g.word, k.access, k.writes, known);
    let next_pc = next_pc(pool, k.returns, epc, g.pc);
    let cause = lit(pool, 32, 2);
    let fence = lit(pool, 1, 0);
    Outs {
        done,
        trap,
        next_pc,
        cause,
        fence,
    }
}

/// The circuit of one cycle: the outputs of both services, and the next values of the registers. `misa` is what misa reads.
#[tactic(auto, using(hw_gates::proofs::Plain::plain))]
pub fn unit_nets(pool: &mut Pool, misa: u64, c: Cycle) -> Shown
    requires misa { misa < 2 ^ 32 }
    requires spare { 235 ≤ pool.old.spare }
    requires cycle { IsCycle pool.old c }
    ensures shows { (env : Env) → ShowsUnit env pool.new misa (seen_in env pool.old c) result }
    ensures nets { IsShown pool.new result }
    ensures scope { (s : Scope) → IsCycleIn s pool.old c → IsShownIn s pool.new result }
    ensures step { Step pool.old pool.new 235 }
{
    let pending = interrupt_nets(pool, c.held, c.lines);
    let kind = kind_nets(pool, c.given.word);
    let hits = named(pool, c.given.word);
    let value = old_value(pool, misa, hits, c.held, c.lines);
    let outs = out_nets(pool, c.given, c.held.epc, pending.any, kind, hits);
    let new = new_value(pool, c.given.word, c.given.a, value);
    let changes = change_nets(pool, outs.done, outs.trap, c.given.clear, kind, c.told);
    let nexts = next_nets(pool, changes, hits, c.held, c.told, new);
    Shown {
        pending,
        outs,
        value,
        nexts,
    }
}
