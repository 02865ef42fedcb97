ghost use Rattle.std.specs.Prelude.{◌≡◌, ℕ, ◌+◌, ◌<◌, ◌≤◌, ◌^◌, ◌*◌, ◌⊎◌, length, Some, None};
ghost use Rattle.hw_pool.specs.Meaning.{Env};
ghost use Rattle.hw_pool.specs.Scope.{Scope};
ghost use Rattle.hw_gates.specs.Places.{Is, IsIn, Step, value_in};
ghost use Rattle.hw_module.specs.Checked.{DriversFit};
ghost use Rattle.hw_module.specs.Rows.{reg_at};
ghost use Rattle.hw_module.specs.Scope.{scope_of};
ghost use Rattle.plug_fetch.specs.Machine.{address_of, dropped_of, given_of, owed_of, pc_of};
ghost use Rattle.plug_fetch.specs.Registers.{
  AreCommandNets,
  AreCommandNetsIn,
  AreCycleBits,
  AreCycleBitsIn,
  Drives,
  IsCommandDriven,
  IsCycle,
  IsCycleIn,
  IsOpenCommand,
  IsOpenPlace,
  IsPlaceDriven,
  driven_row,
  seen_in,
};

use crate::circuit::{
    CycleBits, address_next, cycle_bits, dropped_next, given_next, owed_next, pc_next,
};
use crate::drive::drive_reg;
use crate::places::{Cycle, drive_places};
use hw_expr::Net;
use hw_pool::Pool;
use plug_build::Builder;

/// The next values of the registers of the command: `address` and `next_pc` have 32 bits, the others one.
#[derive(Clone, Copy, Debug)]
pub(crate) struct CommandNets {
    pub(crate) given: Net,
    pub(crate) owed: Net,
    pub(crate) dropped: Net,
    pub(crate) address: Net,
    pub(crate) next_pc: Net,
}

/// The next values of the registers of the command; `last` is 1 where the last place will be held.
#[tactic(auto, using(hw_gates::proofs::Plain::plain))]
fn command_nets(pool: &mut Pool, c: Cycle, bits: CycleBits, last: Net) -> CommandNets
    requires spare { 15 ≤ pool.old.spare }
    requires cycle { IsCycle pool.old c }
    requires bits { AreCycleBits pool.old bits }
    requires last { Is pool.old last 1 8 }
    ensures given { (env : Env) → value_in env pool.new result.given
        ≡ given_of (value_in env pool.old bits.idle) (value_in env pool.old last) (value_in env pool.old c.given) (value_in env pool.old c.ready) }
    ensures owed { (env : Env) → value_in env pool.new result.owed
        ≡ owed_of (value_in env pool.old c.given) (value_in env pool.old c.ready) (value_in env pool.old c.owed) (value_in env pool.old bits.response) }
    ensures dropped { (env : Env) → value_in env pool.new result.dropped
        ≡ dropped_of (value_in env pool.old c.redirect) (value_in env pool.old c.dropped) (value_in env pool.old bits.idle) }
    ensures next_pc { (env : Env) → value_in env pool.new result.next_pc
        ≡ pc_of (value_in env pool.old c.redirect) (value_in env pool.old c.redirect_pc) (value_in env pool.old bits.kept) (value_in env pool.old c.guess) (value_in env pool.old c.next_pc) }
    ensures address { (env : Env) → value_in env pool.new result.address
        ≡ address_of (value_in env pool.old bits.idle)
        (pc_of (value_in env pool.old c.redirect) (value_in env pool.old c.redirect_pc) (value_in env pool.old bits.kept) (value_in env pool.old c.guess) (value_in env pool.old c.next_pc))
        (value_in env pool.old c.address) }
    ensures nets { AreCommandNets pool.new result }
    ensures scope { (s : Scope) → IsCycleIn s pool.old c → AreCycleBitsIn s pool.old bits → IsIn s pool.old last → AreCommandNetsIn s pool.new result }
    ensures step { Step pool.old pool.new 15 }
{
    let given = given_next(pool, bits.idle, last, c.given, c.ready);
    let owed = owed_next(pool, c.given, c.ready, c.owed, bits.response);
    let dropped = dropped_next(pool, c.redirect, c.dropped, bits.idle);
    let next_pc = pc_next(
        pool,
        c.redirect,
        c.redirect_pc,
        bits.kept,
        c.guess,
        c.next_pc,
    );
    let address = address_next(pool, bits.idle, next_pc, c.address);
    CommandNets {
        given,
        owed,
        dropped,
        address,
        next_pc,
    }
}

/// Gives the registers of the command, from `reg` on, their next values.
fn drive_command(b: &mut Builder, pool: &Pool, reg: u32, n: CommandNets)
    requires room { 5 ≤ b.old.design.room }
    requires few { length b.old.design.regs < 2 ^ 32 }
    requires open { (reset_pc : ℕ) × IsOpenCommand b.old.design b.old.entry reg reset_pc }
    requires nets { AreCommandNets pool.now n }
    requires scope { AreCommandNetsIn (scope_of b.old.design) pool.now n }
    requires drivers { DriversFit b.old.design pool.now }
    ensures given { reg_at b.new.design.regs reg ≡ driven_row b.old.entry 1 (Some 0) n.given }
    ensures owed { reg_at b.new.design.regs (reg + 1) ≡ driven_row b.old.entry 1 (Some 0) n.owed }
    ensures dropped { reg_at b.new.design.regs (reg + 2) ≡ driven_row b.old.entry 1 (Some 0) n.dropped }
    ensures address { reg_at b.new.design.regs (reg + 3) ≡ driven_row b.old.entry 32 None n.address }
    ensures next_pc { (reset_pc : ℕ) → IsOpenCommand b.old.design b.old.entry reg reset_pc → reg_at b.new.design.regs (reg + 4) ≡ driven_row b.old.entry 32 (Some reset_pc) n.next_pc }
    ensures others { (k : ℕ) → (k < reg) ⊎ (reg + 5 ≤ k) → reg_at b.new.design.regs k ≡ reg_at b.old.design.regs k }
    ensures drives { Drives 5 b.old b.new }
    ensures drivers { DriversFit b.new.design pool.now }
{
    drive_reg(b, pool, reg, n.given);
    drive_reg(b, pool, reg + 1, n.owed);
    drive_reg(b, pool, reg + 2, n.dropped);
    drive_reg(b, pool, reg + 3, n.address);
    drive_reg(b, pool, reg + 4, n.next_pc);
}

/// Gives all registers of the part, of which those of the places begin at `first` and the others behind them, their next values.
pub(crate) fn drive_regs(b: &mut Builder, pool: &mut Pool, first: u32, depth: u32, c: Cycle)
    requires room { 4 * depth + 5 ≤ b.old.design.room }
    requires spare { 21 * depth + 22 ≤ pool.old.spare }
    requires least { 1 ≤ depth }
    requires most { depth ≤ 4 }
    requires few { length b.old.design.regs < 2 ^ 32 }
    requires open { (j : ℕ) → j < depth → IsOpenPlace b.old.design b.old.entry (first + 4 * j) }
    requires command { (reset_pc : ℕ) × IsOpenCommand b.old.design b.old.entry (first + 4 * depth) reset_pc }
    requires cycle { IsCycle pool.old c }
    requires cycle_in { IsCycleIn (scope_of b.old.design) pool.old c }
    requires drivers { DriversFit b.old.design pool.old }
    ensures places { (i : ℕ) → i < depth → IsPlaceDriven b.new.design pool.new b.old.entry first depth i (λ env. seen_in env pool.old c first) }
    ensures command { (reset_pc : ℕ) → IsOpenCommand b.old.design b.old.entry (first + 4 * depth) reset_pc
        → IsCommandDriven b.new.design pool.new b.old.entry (first + 4 * depth) reset_pc depth (λ env. seen_in env pool.old c first) }
    ensures others { (k : ℕ) → (k < first) ⊎ (first + 4 * depth + 5 ≤ k) → reg_at b.new.design.regs k ≡ reg_at b.old.design.regs k }
    ensures drives { Drives (4 * depth + 5) b.old b.new }
    ensures drivers { DriversFit b.new.design pool.new }
    ensures step { Step pool.old pool.new (21 * depth + 22) }
{
    let bits = cycle_bits(pool, c.given, c.owed, c.dropped, c.answered);
    let last = drive_places(b, pool, first, depth, c, bits.kept);
    let nets = command_nets(pool, c, bits, last);
    drive_command(b, pool, first + 4 * depth, nets);
}
