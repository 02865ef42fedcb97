ghost use Rattle.std.specs.Prelude.{◌≡◌, ℕ, ◌+◌, ◌<◌, ◌≤◌, ◌^◌, ◌*◌, ◌-◌, ◌⊎◌, false, cond, length, Some, None};
ghost use Rattle.hw_pool.specs.Meaning.{Env};
ghost use Rattle.hw_gates.specs.Places.{Has, Is, IsIn, Step, value_in};
ghost use Rattle.hw_module.specs.declared.rows.Owner.TheVariants.{Entry};
ghost use Rattle.hw_module.specs.Checked.{DriversFit};
ghost use Rattle.hw_module.specs.Rows.{reg_at};
ghost use Rattle.hw_module.specs.Scope.{scope_of};
ghost use Rattle.plug_fetch.specs.Machine.{held_after, held_of, put_of};
ghost use Rattle.plug_fetch.specs.Machine as machine;
ghost use Rattle.plug_fetch.specs.Registers.{
  Drives,
  IsCycle,
  IsCycleIn,
  IsOpenPlace,
  IsPlaceDriven,
  ArePlaceNets,
  ArePlaceNetsIn,
  driven_row,
  fills_at,
  moved_at,
  put_at,
  seen_in,
};

use crate::circuit::{place_bits, put};
use crate::drive::drive_reg;
use hw_expr::Net;
use hw_gates::lit;
use hw_pool::Pool;
use plug_build::Builder;
use plug_kit::reg_net;

/// What the part reads in a cycle: its registers but those of the places, its inputs, the bus's answers, and the pc behind the
/// word that comes. Pcs and words have 32 bits, the others one.
#[derive(Clone, Copy, Debug)]
pub(crate) struct Cycle {
    pub(crate) given: Net,
    pub(crate) owed: Net,
    pub(crate) dropped: Net,
    pub(crate) address: Net,
    pub(crate) next_pc: Net,
    pub(crate) take: Net,
    pub(crate) redirect: Net,
    pub(crate) redirect_pc: Net,
    pub(crate) ready: Net,
    pub(crate) answered: Net,
    pub(crate) failed: Net,
    pub(crate) payload: Net,
    pub(crate) guess: Net,
}

/// The next values of the registers of a place, and whether it is held after a take.
#[derive(Clone, Copy, Debug)]
pub(crate) struct PlaceNets {
    pub(crate) moved: Net,
    pub(crate) held: Net,
    pub(crate) pc: Net,
    pub(crate) word: Net,
    pub(crate) error: Net,
}

/// One bit: the next place is held, which is not so beyond the last one.
fn next_held(b: &Builder, pool: &mut Pool, reg: u32, last: bool) -> Net
    requires spare { 1 ≤ pool.old.spare }
    requires few { length b.now.design.regs < 2 ^ 32 }
    requires there { last ≡ false → reg + 4 < length b.now.design.regs }
    requires bit { last ≡ false → (reg_at b.now.design.regs (reg + 4)).width ≡ 1 }
    ensures value { (env : Env) → value_in env pool.new result ≡ cond last 0 (env.regs (reg + 4)) }
    ensures net { Is pool.new result 1 8 }
    ensures scope { IsIn (scope_of b.now.design) pool.new result }
    ensures step { Step pool.old pool.new 1 }
{
    if last {
        return lit(pool, 1, 0);
    }
    reg_net(b, pool, reg + 4)
}

/// What the next place holds in the register that is four on, of a pc, a word or an error; in the last place its own.
fn next_content(b: &Builder, pool: &mut Pool, reg: u32, last: bool, own: Net) -> Net
    requires spare { 1 ≤ pool.old.spare }
    requires few { length b.now.design.regs < 2 ^ 32 }
    requires own { Is pool.old own own.width 8 }
    requires scope { IsIn (scope_of b.now.design) pool.old own }
    requires there { last ≡ false → reg + 4 < length b.now.design.regs }
    requires wide { last ≡ false → (reg_at b.now.design.regs (reg + 4)).width ≡ own.width }
    ensures value { (env : Env) → value_in env pool.new result ≡ cond last (value_in env pool.old own) (env.regs (reg + 4)) }
    ensures net { Is pool.new result own.width 8 }
    ensures scope { IsIn (scope_of b.now.design) pool.new result }
    ensures step { Step pool.old pool.new 1 }
{
    if last {
        return own;
    }
    reg_net(b, pool, reg + 4)
}

/// What a place holds next, of a pc, a word or an error.
fn content(
    b: &Builder,
    pool: &mut Pool,
    reg: u32,
    last: bool,
    take: Net,
    fills: Net,
    came: Net,
) -> Net
    requires spare { 4 ≤ pool.old.spare }
    requires few { length b.now.design.regs < 2 ^ 32 }
    requires take { Is pool.old take 1 8 }
    requires fills { Is pool.old fills 1 8 }
    requires came { Is pool.old came came.width 8 }
    requires take_in { IsIn (scope_of b.now.design) pool.old take }
    requires fills_in { IsIn (scope_of b.now.design) pool.old fills }
    requires came_in { IsIn (scope_of b.now.design) pool.old came }
    requires own_there { reg < length b.now.design.regs }
    requires own_wide { (reg_at b.now.design.regs reg).width ≡ came.width }
    requires there { last ≡ false → reg + 4 < length b.now.design.regs }
    requires wide { last ≡ false → (reg_at b.now.design.regs (reg + 4)).width ≡ came.width }
    ensures value { (env : Env) → value_in env pool.new result
        ≡ put_of (value_in env pool.old fills) (value_in env pool.old came) (value_in env pool.old take) (cond last (env.regs reg) (env.regs (reg + 4))) (env.regs reg) }
    ensures net { Is pool.new result came.width 8 }
    ensures scope { IsIn (scope_of b.now.design) pool.new result }
    ensures step { Step pool.old pool.new 4 }
{
    let own = reg_net(b, pool, reg);
    let next = next_content(b, pool, reg, last, own);
    put(pool, fills, came, take, next, own)
}

/// The next values of the registers of a place, from `reg` on; it has a next place where it is not the last one. `kept` is 1 where the
/// word that comes is kept, and `before` where the place before is held after a take.
#[tactic(auto, using(hw_gates::proofs::Plain::plain))]
fn place_nets(
    b: &Builder,
    pool: &mut Pool,
    reg: u32,
    last: bool,
    c: Cycle,
    kept: Net,
    before: Net,
) -> PlaceNets
    requires spare { 21 ≤ pool.old.spare }
    requires few { length b.now.design.regs < 2 ^ 32 }
    requires own { IsOpenPlace b.now.design b.now.entry reg }
    requires next { last ≡ false → IsOpenPlace b.now.design b.now.entry (reg + 4) }
    requires cycle { IsCycle pool.old c }
    requires cycle_in { IsCycleIn (scope_of b.now.design) pool.old c }
    requires kept { Is pool.old kept 1 8 }
    requires kept_in { IsIn (scope_of b.now.design) pool.old kept }
    requires before { Is pool.old before 1 8 }
    requires before_in { IsIn (scope_of b.now.design) pool.old before }
    ensures moved { (env : Env) → value_in env pool.new result.moved ≡ moved_at env pool.old c reg last }
    ensures held { (env : Env) → value_in env pool.new result.held
        ≡ held_of (value_in env pool.old c.redirect) (moved_at env pool.old c reg last) (fills_at env pool.old c reg last kept before) }
    ensures pc { (env : Env) → value_in env pool.new result.pc ≡ put_at env pool.old c reg last kept before c.address (reg + 1) }
    ensures word { (env : Env) → value_in env pool.new result.word ≡ put_at env pool.old c reg last kept before c.payload (reg + 2) }
    ensures error { (env : Env) → value_in env pool.new result.error ≡ put_at env pool.old c reg last kept before c.failed (reg + 3) }
    ensures nets { ArePlaceNets pool.new result }
    ensures scope { ArePlaceNetsIn (scope_of b.now.design) pool.new result }
    ensures step { Step pool.old pool.new 21 }
{
    let own = reg_net(b, pool, reg);
    let next = next_held(b, pool, reg, last);
    let bits = place_bits(pool, c.take, c.redirect, kept, before, own, next);
    let pc = content(b, pool, reg + 1, last, c.take, bits.fills, c.address);
    let word = content(b, pool, reg + 2, last, c.take, bits.fills, c.payload);
    let error = content(b, pool, reg + 3, last, c.take, bits.fills, c.failed);
    PlaceNets {
        moved: bits.moved,
        held: bits.held,
        pc,
        word,
        error,
    }
}

/// Gives the registers of a place, from `reg` on, their next values.
fn drive_place(b: &mut Builder, pool: &Pool, reg: u32, p: PlaceNets)
    requires room { 4 ≤ b.old.design.room }
    requires few { length b.old.design.regs < 2 ^ 32 }
    requires open { IsOpenPlace b.old.design b.old.entry reg }
    requires nets { ArePlaceNets pool.now p }
    requires scope { ArePlaceNetsIn (scope_of b.old.design) pool.now p }
    requires drivers { DriversFit b.old.design pool.now }
    ensures held { reg_at b.new.design.regs reg ≡ driven_row b.old.entry 1 (Some 0) p.held }
    ensures pc { reg_at b.new.design.regs (reg + 1) ≡ driven_row b.old.entry 32 None p.pc }
    ensures word { reg_at b.new.design.regs (reg + 2) ≡ driven_row b.old.entry 32 None p.word }
    ensures error { reg_at b.new.design.regs (reg + 3) ≡ driven_row b.old.entry 1 None p.error }
    ensures others { (k : ℕ) → (k < reg) ⊎ (reg + 4 ≤ k) → reg_at b.new.design.regs k ≡ reg_at b.old.design.regs k }
    ensures drives { Drives 4 b.old b.new }
    ensures drivers { DriversFit b.new.design pool.now }
{
    drive_reg(b, pool, reg, p.held);
    drive_reg(b, pool, reg + 1, p.pc);
    drive_reg(b, pool, reg + 2, p.word);
    drive_reg(b, pool, reg + 3, p.error);
}

/// Gives the registers of place `i` their next values.
fn one_place(
    b: &mut Builder,
    pool: &mut Pool,
    first: u32,
    i: u32,
    depth: u32,
    c: Cycle,
    kept: Net,
    before: Net,
) -> PlaceNets
    requires room { 4 ≤ b.old.design.room }
    requires spare { 21 ≤ pool.old.spare }
    requires within { i < depth }
    requires most { depth ≤ 4 }
    requires few { length b.old.design.regs < 2 ^ 32 }
    requires open { (j : ℕ) → i ≤ j → j < depth → IsOpenPlace b.old.design b.old.entry (first + 4 * j) }
    requires cycle { IsCycle pool.old c }
    requires cycle_in { IsCycleIn (scope_of b.old.design) pool.old c }
    requires kept { Is pool.old kept 1 8 }
    requires kept_in { IsIn (scope_of b.old.design) pool.old kept }
    requires kept_is { (env : Env) → value_in env pool.old kept ≡ machine.kept (seen_in env pool.old c first) }
    requires before { Is pool.old before 1 8 }
    requires before_in { IsIn (scope_of b.old.design) pool.old before }
    requires before_is { (env : Env) → value_in env pool.old before ≡ machine.before depth (seen_in env pool.old c first) i }
    requires drivers { DriversFit b.old.design pool.old }
    ensures moved { (env : Env) → value_in env pool.new result.moved ≡ machine.moved depth (seen_in env pool.old c first) i }
    ensures held { (env : Env) → value_in env pool.new result.held ≡ held_after depth (seen_in env pool.old c first) i }
    ensures driven { IsPlaceDriven b.new.design pool.new b.old.entry first depth i (λ env. seen_in env pool.old c first) }
    ensures nets { ArePlaceNets pool.new result }
    ensures scope { ArePlaceNetsIn (scope_of b.old.design) pool.new result }
    ensures others { (k : ℕ) → (k < first + 4 * i) ⊎ (first + 4 * i + 4 ≤ k) → reg_at b.new.design.regs k ≡ reg_at b.old.design.regs k }
    ensures drives { Drives 4 b.old b.new }
    ensures drivers { DriversFit b.new.design pool.new }
    ensures step { Step pool.old pool.new 21 }
{
    let reg = first + 4 * i;
    let nets = place_nets(b, pool, reg, i + 1 == depth, c, kept, before);
    drive_place(b, pool, reg, nets);
    nets
}

/// Gives the registers of `depth` places, four each from `first` on, their next values. Answers one bit: the last place will be held.
pub(crate) fn drive_places(
    b: &mut Builder,
    pool: &mut Pool,
    first: u32,
    depth: u32,
    c: Cycle,
    kept: Net,
) -> Net
    requires room { 4 * depth ≤ b.old.design.room }
    requires spare { 21 * depth + 1 ≤ pool.old.spare }
    requires least { 1 ≤ depth }
    requires most { depth ≤ 4 }
    requires few { length b.old.design.regs < 2 ^ 32 }
    requires open { (j : ℕ) → j < depth → IsOpenPlace b.old.design b.old.entry (first + 4 * j) }
    requires cycle { IsCycle pool.old c }
    requires cycle_in { IsCycleIn (scope_of b.old.design) pool.old c }
    requires kept { Is pool.old kept 1 8 }
    requires kept_in { IsIn (scope_of b.old.design) pool.old kept }
    requires kept_is { (env : Env) → value_in env pool.old kept ≡ machine.kept (seen_in env pool.old c first) }
    requires drivers { DriversFit b.old.design pool.old }
    ensures driven { (i : ℕ) → i < depth → IsPlaceDriven b.new.design pool.new b.old.entry first depth i (λ env. seen_in env pool.old c first) }
    ensures last { (env : Env) → value_in env pool.new result ≡ held_after depth (seen_in env pool.old c first) (depth - 1) }
    ensures net { Is pool.new result 1 8 }
    ensures scope { IsIn (scope_of b.old.design) pool.new result }
    ensures others { (k : ℕ) → (k < first) ⊎ (first + 4 * depth ≤ k) → reg_at b.new.design.regs k ≡ reg_at b.old.design.regs k }
    ensures drives { Drives (4 * depth) b.old b.new }
    ensures drivers { DriversFit b.new.design pool.new }
    ensures step { Step pool.old pool.new (21 * depth + 1) }
{
    let mut before = lit(pool, 1, 1);
    let mut last = before;
    for i in 0..depth {
        let nets = one_place(b, pool, first, i, depth, c, kept, before);
        before = nets.moved;
        last = nets.held;
    }
    last
}
