ghost use Rattle.std.specs.Prelude.{◌≡◌, ℕ, ◌≤◌, ◌<◌, eqb};
ghost use Rattle.core_words.specs.Values.{bits_of, one_if};
ghost use Rattle.hw_pool.specs.Meaning.{Env};
ghost use Rattle.hw_pool.specs.Scope.{Scope};
ghost use Rattle.hw_gates.specs.Places.{Is, IsIn, Step, value_in};
ghost use Rattle.csr_nets.specs.Machine.{hit_of, identity_of, known_by};
ghost use Rattle.csr_nets.specs.Nets.{AreHits, AreHitsIn, hits_in};

use hw_expr::Net;
use hw_gates::{and, eq, lit, or, slice};
use hw_pool::Pool;

/// Which CSR a word names, one bit each: mstatus, misa, mie, mtvec, mscratch, mepc, mcause, mtval, mip, or one of the four that
/// identify the machine.
#[derive(Clone, Copy, Debug)]
pub struct Hits {
    pub status: Net,
    pub isa: Net,
    pub enables: Net,
    pub vector: Net,
    pub scratch: Net,
    pub epc: Net,
    pub cause: Net,
    pub tval: Net,
    pub pending: Net,
    pub identity: Net,
}

/// One bit: the upper nine bits of the number of the CSR are these.
fn upper(pool: &mut Pool, word: Net, bits: u64) -> Net
    requires spare { 3 ≤ pool.old.spare }
    requires word { Is pool.old word 32 4 }
    requires bits { bits < 512 }
    ensures value { (env : Env) → value_in env pool.new result ≡ one_if (eqb (bits_of (value_in env pool.old word) 31 23) bits) }
    ensures net { Is pool.new result 1 4 }
    ensures scope { (s : Scope) → IsIn s pool.old word → IsIn s pool.new result }
    ensures step { Step pool.old pool.new 3 }
{
    let number = slice(pool, word, 31, 23);
    let wanted = lit(pool, 9, bits);
    eq(pool, number, wanted)
}

/// One bit: its lower three bits are these.
fn lower(pool: &mut Pool, word: Net, bits: u64) -> Net
    requires spare { 3 ≤ pool.old.spare }
    requires word { Is pool.old word 32 4 }
    requires bits { bits < 8 }
    ensures value { (env : Env) → value_in env pool.new result ≡ one_if (eqb (bits_of (value_in env pool.old word) 22 20) bits) }
    ensures net { Is pool.new result 1 4 }
    ensures scope { (s : Scope) → IsIn s pool.old word → IsIn s pool.new result }
    ensures step { Step pool.old pool.new 3 }
{
    let number = slice(pool, word, 22, 20);
    let wanted = lit(pool, 3, bits);
    eq(pool, number, wanted)
}

/// One bit each: the word names mstatus, misa, mie or mtvec.
#[tactic(auto, unfolding(crate::specs::Machine::hit_of), using(hw_gates::proofs::Plain::plain))]
fn machine_hits(pool: &mut Pool, word: Net) -> (Net, Net, Net, Net)
    requires spare { 19 ≤ pool.old.spare }
    requires word { Is pool.old word 32 4 }
    ensures status { (env : Env) → value_in env pool.new result.0 ≡ hit_of (value_in env pool.old word) 0x60 0 }
    ensures isa { (env : Env) → value_in env pool.new result.1 ≡ hit_of (value_in env pool.old word) 0x60 1 }
    ensures enables { (env : Env) → value_in env pool.new result.2 ≡ hit_of (value_in env pool.old word) 0x60 4 }
    ensures vector { (env : Env) → value_in env pool.new result.3 ≡ hit_of (value_in env pool.old word) 0x60 5 }
    ensures nets { Is pool.new result.0 1 4 × Is pool.new result.1 1 4 × Is pool.new result.2 1 4 × Is pool.new result.3 1 4 }
    ensures scope { (s : Scope) → IsIn s pool.old word → IsIn s pool.new result.0 × IsIn s pool.new result.1 × IsIn s pool.new result.2 × IsIn s pool.new result.3 }
    ensures step { Step pool.old pool.new 19 }
{
    let above = upper(pool, word, 0x60);
    let at_0 = lower(pool, word, 0);
    let at_1 = lower(pool, word, 1);
    let at_4 = lower(pool, word, 4);
    let at_5 = lower(pool, word, 5);
    let status = and(pool, above, at_0);
    let isa = and(pool, above, at_1);
    let enables = and(pool, above, at_4);
    let vector = and(pool, above, at_5);
    (status, isa, enables, vector)
}

/// One bit each: the word names mscratch, mepc, mcause, mtval or mip.
#[tactic(auto, unfolding(crate::specs::Machine::hit_of), using(hw_gates::proofs::Plain::plain))]
fn trap_hits(pool: &mut Pool, word: Net) -> (Net, Net, Net, Net, Net)
    requires spare { 23 ≤ pool.old.spare }
    requires word { Is pool.old word 32 4 }
    ensures scratch { (env : Env) → value_in env pool.new result.0 ≡ hit_of (value_in env pool.old word) 0x68 0 }
    ensures epc { (env : Env) → value_in env pool.new result.1 ≡ hit_of (value_in env pool.old word) 0x68 1 }
    ensures cause { (env : Env) → value_in env pool.new result.2 ≡ hit_of (value_in env pool.old word) 0x68 2 }
    ensures tval { (env : Env) → value_in env pool.new result.3 ≡ hit_of (value_in env pool.old word) 0x68 3 }
    ensures pending { (env : Env) → value_in env pool.new result.4 ≡ hit_of (value_in env pool.old word) 0x68 4 }
    ensures nets { Is pool.new result.0 1 4 × Is pool.new result.1 1 4 × Is pool.new result.2 1 4 × Is pool.new result.3 1 4 × Is pool.new result.4 1 4 }
    ensures scope { (s : Scope) → IsIn s pool.old word → IsIn s pool.new result.0 × IsIn s pool.new result.1 × IsIn s pool.new result.2 × IsIn s pool.new result.3 × IsIn s pool.new result.4 }
    ensures step { Step pool.old pool.new 23 }
{
    let above = upper(pool, word, 0x68);
    let at_0 = lower(pool, word, 0);
    let at_1 = lower(pool, word, 1);
    let at_2 = lower(pool, word, 2);
    let at_3 = lower(pool, word, 3);
    let at_4 = lower(pool, word, 4);
    let scratch = and(pool, above, at_0);
    let epc = and(pool, above, at_1);
    let cause = and(pool, above, at_2);
    let tval = and(pool, above, at_3);
    let pending = and(pool, above, at_4);
    (scratch, epc, cause, tval, pending)
}

/// One bit: the word names mvendorid, marchid, mimpid or mhartid.
#[tactic(auto, unfolding(crate::specs::Machine::identity_of, crate::specs::Machine::hit_of), using(hw_gates::proofs::Plain::plain))]
fn identity(pool: &mut Pool, word: Net) -> Net
    requires spare { 22 ≤ pool.old.spare }
    requires word { Is pool.old word 32 4 }
    ensures value { (env : Env) → value_in env pool.new result ≡ identity_of (value_in env pool.old word) }
    ensures net { Is pool.new result 1 4 }
    ensures scope { (s : Scope) → IsIn s pool.old word → IsIn s pool.new result }
    ensures step { Step pool.old pool.new 22 }
{
    let above = upper(pool, word, 0x1e2);
    let at_1 = lower(pool, word, 1);
    let at_2 = lower(pool, word, 2);
    let at_3 = lower(pool, word, 3);
    let at_4 = lower(pool, word, 4);
    let vendor = and(pool, above, at_1);
    let architecture = and(pool, above, at_2);
    let implementation = and(pool, above, at_3);
    let hart = and(pool, above, at_4);
    let last = or(pool, implementation, hart);
    let later = or(pool, architecture, last);
    or(pool, vendor, later)
}

/// Which CSR the word names.
#[tactic(auto, using(hw_gates::proofs::Plain::plain))]
pub(crate) fn named(pool: &mut Pool, word: Net) -> Hits
    requires spare { 64 ≤ pool.old.spare }
    requires word { Is pool.old word 32 4 }
    ensures status { (env : Env) → value_in env pool.new result.status ≡ hit_of (value_in env pool.old word) 0x60 0 }
    ensures isa { (env : Env) → value_in env pool.new result.isa ≡ hit_of (value_in env pool.old word) 0x60 1 }
    ensures enables { (env : Env) → value_in env pool.new result.enables ≡ hit_of (value_in env pool.old word) 0x60 4 }
    ensures vector { (env : Env) → value_in env pool.new result.vector ≡ hit_of (value_in env pool.old word) 0x60 5 }
    ensures scratch { (env : Env) → value_in env pool.new result.scratch ≡ hit_of (value_in env pool.old word) 0x68 0 }
    ensures epc { (env : Env) → value_in env pool.new result.epc ≡ hit_of (value_in env pool.old word) 0x68 1 }
    ensures cause { (env : Env) → value_in env pool.new result.cause ≡ hit_of (value_in env pool.old word) 0x68 2 }
    ensures tval { (env : Env) → value_in env pool.new result.tval ≡ hit_of (value_in env pool.old word) 0x68 3 }
    ensures pending { (env : Env) → value_in env pool.new result.pending ≡ hit_of (value_in env pool.old word) 0x68 4 }
    ensures identity { (env : Env) → value_in env pool.new result.identity ≡ identity_of (value_in env pool.old word) }
    ensures nets { AreHits pool.new result }
    ensures scope { (s : Scope) → IsIn s pool.old word → AreHitsIn s pool.new result }
    ensures step { Step pool.old pool.new 64 }
{
    let (status, isa, enables, vector) = machine_hits(pool, word);
    let (scratch, epc, cause, tval, pending) = trap_hits(pool, word);
    let identity = identity(pool, word);
    Hits {
        status,
        isa,
        enables,
        vector,
        scratch,
        epc,
        cause,
        tval,
        pending,
        identity,
    }
}

/// One bit: there is a CSR of the number.
#[tactic(auto, unfolding(crate::specs::Machine::known_by), using(hw_gates::proofs::Plain::plain))]
pub(crate) fn known(pool: &mut Pool, h: Hits) -> Net
    requires spare { 9 ≤ pool.old.spare }
    requires h { AreHits pool.old h }
    ensures value { (env : Env) → value_in env pool.new result ≡ known_by (hits_in env pool.old h) }
    ensures net { Is pool.new result 1 4 }
    ensures scope { (s : Scope) → AreHitsIn s pool.old h → IsIn s pool.new result }
    ensures step { Step pool.old pool.new 9 }
{
    let last = or(pool, h.pending, h.identity);
    let from_tval = or(pool, h.tval, last);
    let from_cause = or(pool, h.cause, from_tval);
    let from_epc = or(pool, h.epc, from_cause);
    let from_scratch = or(pool, h.scratch, from_epc);
    let from_vector = or(pool, h.vector, from_scratch);
    let from_enables = or(pool, h.enables, from_vector);
    let from_isa = or(pool, h.isa, from_enables);
    or(pool, h.status, from_isa)
}
