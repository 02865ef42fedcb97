ghost use Rattle.std.specs.Prelude.{◌≡◌, ℕ, ◌≤◌};
ghost use Rattle.core_words.specs.Values.{bits_of, choose};
ghost use Rattle.hw_pool.specs.Meaning.{Env};
ghost use Rattle.hw_pool.specs.Scope.{Scope};
ghost use Rattle.hw_gates.specs.Places.{Is, IsIn, Step, value_in};
ghost use Rattle.isa_model.specs.Effects.{behind};
ghost use Rattle.dbus_law.specs.Words.{address_of, spread_of};
ghost use Rattle.plug_dbus.specs.Machine.{
  cause_of,
  done_of,
  given_of,
  mask_at,
  misaligned_of,
  needs_none_of,
  owed_of,
  starts_of,
  trap_of,
  value_at,
  whole_of,
};
ghost use Rattle.plug_dbus.specs.Nets.{
  AreNexts,
  AreNextsIn,
  AreOuts,
  AreOutsIn,
  IsAccess,
  IsAccessIn,
  IsCycle,
  IsCycleIn,
};

use crate::circuit::{
    address, cause, done, given_next, misaligned, needs_none, owed_next, starts, trap,
    whole_address,
};
use crate::lanes::{access_mask, loaded, spread};
use hw_expr::Net;
use hw_gates::{add, lit, mux, slice};
use hw_pool::Pool;

/// What the registers hold: whether a command is given and a response is owed, and the command's address of 32 bits, whether it
/// writes, its data of 32 bits and its mask of 4.
#[derive(Clone, Copy, Debug)]
pub(crate) struct Held {
    pub(crate) given: Net,
    pub(crate) owed: Net,
    pub(crate) address: Net,
    pub(crate) writes: Net,
    pub(crate) payload: Net,
    pub(crate) mask: Net,
}

/// What the unit is given: go and clear of one bit, the others of 32.
#[derive(Clone, Copy, Debug)]
pub(crate) struct Given {
    pub(crate) go: Net,
    pub(crate) pc: Net,
    pub(crate) word: Net,
    pub(crate) a: Net,
    pub(crate) b: Net,
    pub(crate) clear: Net,
}

/// What the data bus says: it takes the command, it answers, with an error, and the word that it answers, of 32 bits.
#[derive(Clone, Copy, Debug)]
pub(crate) struct Heard {
    pub(crate) ready: Net,
    pub(crate) answered: Net,
    pub(crate) failed: Net,
    pub(crate) reply: Net,
}

/// What is read in a cycle.
#[derive(Clone, Copy, Debug)]
pub(crate) struct Cycle {
    pub(crate) held: Held,
    pub(crate) given: Given,
    pub(crate) heard: Heard,
}

/// The address of 32 bits of what is given, whether it is misaligned, and whether no command is given for it.
#[derive(Clone, Copy, Debug)]
pub(crate) struct Access {
    pub(crate) address: Net,
    pub(crate) misaligned: Net,
    pub(crate) needs_none: Net,
}

/// The outputs of Exec but the address, which is the value for mtval.
#[derive(Clone, Copy, Debug)]
pub(crate) struct Outs {
    pub(crate) done: Net,
    pub(crate) value: Net,
    pub(crate) next_pc: Net,
    pub(crate) trap: Net,
    pub(crate) cause: Net,
    pub(crate) fence: Net,
}

/// The next values of the registers.
#[derive(Clone, Copy, Debug)]
pub(crate) struct Nexts {
    pub(crate) given: Net,
    pub(crate) owed: Net,
    pub(crate) address: Net,
    pub(crate) writes: Net,
    pub(crate) payload: Net,
    pub(crate) mask: Net,
}

/// The access of a word with the value of register rs1.
pub(crate) fn access_nets(pool: &mut Pool, word: Net, a: Net) -> Access
    requires spare { 27 ≤ pool.old.spare }
    requires word { Is pool.old word 32 4 }
    requires a { Is pool.old a 32 4 }
    ensures address { (env : Env) → value_in env pool.new result.address ≡ address_of (value_in env pool.old word) (value_in env pool.old a) }
    ensures misaligned { (env : Env) → value_in env pool.new result.misaligned
        ≡ misaligned_of (value_in env pool.old word) (address_of (value_in env pool.old word) (value_in env pool.old a)) }
    ensures needs_none { (env : Env) → value_in env pool.new result.needs_none
        ≡ needs_none_of (value_in env pool.old word) (misaligned_of (value_in env pool.old word) (address_of (value_in env pool.old word) (value_in env pool.old a))) }
    ensures nets { IsAccess pool.new result }
    ensures scope { (s : Scope) → IsIn s pool.old word → IsIn s pool.old a → IsAccessIn s pool.new result }
    ensures step { Step pool.old pool.new 27 }
{
    let address = address(pool, word, a);
    let misaligned = misaligned(pool, word, address);
    let needs_none = needs_none(pool, word, misaligned);
    Access {
        address,
        misaligned,
        needs_none,
    }
}

/// The outputs of a cycle.
#[tactic(auto, using(hw_gates::proofs::Plain::plain))]
pub(crate) fn out_nets(pool: &mut Pool, c: Cycle, x: Access) -> Outs
    requires spare { 46 ≤ pool.old.spare }
    requires cycle { IsCycle pool.old c }
    requires access { IsAccess pool.old x }
    ensures done { (env : Env) → value_in env pool.new result.done
        ≡ done_of (value_in env pool.old c.given.go) (value_in env pool.old x.needs_none) (value_in env pool.old c.held.owed) (value_in env pool.old c.heard.answered) }
    ensures value { (env : Env) → value_in env pool.new result.value
        ≡ value_at (value_in env pool.old c.given.word) (value_in env pool.old x.address) (value_in env pool.old c.heard.reply) }
    ensures next_pc { (env : Env) → value_in env pool.new result.next_pc ≡ behind (value_in env pool.old c.given.pc) }
    ensures trap { (env : Env) → value_in env pool.new result.trap
        ≡ trap_of (value_in env pool.old c.given.word) (value_in env pool.old x.misaligned) (value_in env pool.old c.heard.failed) }
    ensures cause { (env : Env) → value_in env pool.new result.cause ≡ cause_of (value_in env pool.old c.given.word) (value_in env pool.old x.misaligned) }
    ensures fence { (env : Env) → value_in env pool.new result.fence ≡ 0 }
    ensures nets { AreOuts pool.new result }
    ensures scope { (s : Scope) → IsCycleIn s pool.old c → IsAccessIn s pool.old x → AreOutsIn s pool.new result }
    ensures step { Step pool.old pool.new 46 }
{
    let done = done(
        pool,
        c.given.go,
        x.needs_none,
        c.held.owed,
        c.heard.answered,
    );
    let value = loaded(pool, c.given.word, x.address, c.heard.reply);
    let four = lit(pool, 32, 4);
    let next_pc = add(pool, c.given.pc, four);
    let trap = trap(pool, c.given.word, x.misaligned, c.heard.failed);
    let cause = cause(pool, c.given.word, x.misaligned);
    let fence = lit(pool, 1, 0);
    Outs {
        done,
        value,
        next_pc,
        trap,
        cause,
        fence,
    }
}

/// The command that the registers hold next; `starts` is 1 where one begins.
#[tactic(auto, using(hw_gates::proofs::Plain::plain))]
fn command_nets(pool: &mut Pool, c: Cycle, x: Access, starts: Net) -> (Net, Net, Net, Net)
    requires spare { 39 ≤ pool.old.spare }
    requires cycle { IsCycle pool.old c }
    requires access { IsAccess pool.old x }
    requires starts { Is pool.old starts 1 8 }
    ensures address { (env : Env) → value_in env pool.new result.0 ≡ choose (value_in env pool.old starts) (whole_of (value_in env pool.old x.address)) (value_in env pool.old c.held.address) }
    ensures writes { (env : Env) → value_in env pool.new result.1 ≡ choose (value_in env pool.old starts) (bits_of (value_in env pool.old c.given.word) 5 5) (value_in env pool.old c.held.writes) }
    ensures payload { (env : Env) → value_in env pool.new result.2
        ≡ choose (value_in env pool.old starts) (spread_of (value_in env pool.old c.given.word) (value_in env pool.old c.given.b)) (value_in env pool.old c.held.payload) }
    ensures mask { (env : Env) → value_in env pool.new result.3
        ≡ choose (value_in env pool.old starts) (mask_at (value_in env pool.old c.given.word) (value_in env pool.old x.address)) (value_in env pool.old c.held.mask) }
    ensures nets { Is pool.new result.0 32 8 × Is pool.new result.1 1 8 × Is pool.new result.2 32 8 × Is pool.new result.3 4 8 }
    ensures scope { (s : Scope) → IsCycleIn s pool.old c → IsAccessIn s pool.old x → IsIn s pool.old starts
        → IsIn s pool.new result.0 × IsIn s pool.new result.1 × IsIn s pool.new result.2 × IsIn s pool.new result.3 }
    ensures step { Step pool.old pool.new 39 }
{
    let whole = whole_address(pool, x.address);
    let address = mux(pool, starts, whole, c.held.address);
    let store = slice(pool, c.given.word, 5, 5);
    let writes = mux(pool, starts, store, c.held.writes);
    let value = spread(pool, c.given.word, c.given.b);
    let payload = mux(pool, starts, value, c.held.payload);
    let lanes = access_mask(pool, c.given.word, x.address);
    let mask = mux(pool, starts, lanes, c.held.mask);
    (address, writes, payload, mask)
}

/// The next values of the registers.
#[tactic(auto, using(hw_gates::proofs::Plain::plain))]
pub(crate) fn next_nets(pool: &mut Pool, c: Cycle, x: Access) -> Nexts
    requires spare { 51 ≤ pool.old.spare }
    requires cycle { IsCycle pool.old c }
    requires access { IsAccess pool.old x }
    ensures given { (env : Env) → value_in env pool.new result.given
        ≡ given_of (starts_of (value_in env pool.old c.given.go) (value_in env pool.old x.needs_none) (value_in env pool.old c.held.given) (value_in env pool.old c.held.owed)
        (value_in env pool.old c.given.clear)) (value_in env pool.old c.held.given) (value_in env pool.old c.heard.ready) }
    ensures owed { (env : Env) → value_in env pool.new result.owed
        ≡ owed_of (value_in env pool.old c.held.given) (value_in env pool.old c.heard.ready) (value_in env pool.old c.held.owed) (value_in env pool.old c.heard.answered) }
    ensures address { (env : Env) → value_in env pool.new result.address
        ≡ choose (starts_of (value_in env pool.old c.given.go) (value_in env pool.old x.needs_none) (value_in env pool.old c.held.given) (value_in env pool.old c.held.owed)
        (value_in env pool.old c.given.clear)) (whole_of (value_in env pool.old x.address)) (value_in env pool.old c.held.address) }
    ensures writes { (env : Env) → value_in env pool.new result.writes
        ≡ choose (starts_of (value_in env pool.old c.given.go) (value_in env pool.old x.needs_none) (value_in env pool.old c.held.given) (value_in env pool.old c.held.owed)
        (value_in env pool.old c.given.clear)) (bits_of (value_in env pool.old c.given.word) 5 5) (value_in env pool.old c.held.writes) }
    ensures payload { (env : Env) → value_in env pool.new result.payload
        ≡ choose (starts_of (value_in env pool.old c.given.go) (value_in env pool.old x.needs_none) (value_in env pool.old c.held.given) (value_in env pool.old c.held.owed)
        (value_in env pool.old c.given.clear)) (spread_of (value_in env pool.old c.given.word) (value_in env pool.old c.given.b)) (value_in env pool.old c.held.payload) }
    ensures mask { (env : Env) → value_in env pool.new result.mask
        ≡ choose (starts_of (value_in env pool.old c.given.go) (value_in env pool.old x.needs_none) (value_in env pool.old c.held.given) (value_in env pool.old c.held.owed)
        (value_in env pool.old c.given.clear)) (mask_at (value_in env pool.old c.given.word) (value_in env pool.old x.address)) (value_in env pool.old c.held.mask) }
    ensures nets { AreNexts pool.new result }
    ensures scope { (s : Scope) → IsCycleIn s pool.old c → IsAccessIn s pool.old x → AreNextsIn s pool.new result }
    ensures step { Step pool.old pool.new 51 }
{
    let starts = starts(
        pool,
        c.given.go,
        x.needs_none,
        c.held.given,
        c.held.owed,
        c.given.clear,
    );
    let given = given_next(pool, starts, c.held.given, c.heard.ready);
    let owed = owed_next(
        pool,
        c.held.given,
        c.heard.ready,
        c.held.owed,
        c.heard.answered,
    );
    let command = command_nets(pool, c, x, starts);
    Nexts {
        given,
        owed,
        address: command.0,
        writes: command.1,
        payload: command.2,
        mask: command.3,
    }
}
