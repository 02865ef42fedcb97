ghost use Rattle.std.specs.Prelude.{◌≡◌, ℕ, ◌+◌, ◌<◌, ◌≤◌, ◌^◌, None, Some};
ghost use Rattle.hw_gates.specs.Places.{Is, IsIn, Step, value_in};
ghost use Rattle.hw_module.specs.Scope.{scope_of};
ghost use Rattle.hw_pool.specs.Meaning.{Env};
ghost use Rattle.muldiv_law.specs.Machine.{count_next, ends_of, hi_next, lo_next, rounds_of};
ghost use Rattle.plug_build.specs.Fits.{AreInputs};
ghost use Rattle.plug_kit.specs.Made.{exec_list};
ghost use Rattle.service_ports.specs.Ports.{input_shapes};
ghost use Rattle.service_reg.specs.declared.service.Service.TheVariants.{Exec};
ghost use Rattle.unit_steps.specs.Registers.{IsOpenReg};

use hw_expr::Net;
use hw_pool::Pool;
use muldiv_nets::{ends, next_count, next_halves};
use plug_build::Builder;
use plug_kit::{ExecInputs, reg_net, wire_net};

/// The nets of the unit: its last cycle, what it shows, and the next values of its registers.
#[derive(Clone, Copy, Debug, PartialEq, Eq)]
pub(crate) struct MuldivNets {
    pub(crate) ends: Net,
    pub(crate) value: Net,
    pub(crate) count: Net,
    pub(crate) hi: Net,
    pub(crate) lo: Net,
}

/// The circuit with `unroll` steps in a cycle, over the inputs of Exec, the mark of an instruction at work, and the three registers
/// behind it.
#[tactic(auto, using(crate::proofs::Unroll::some_rounds, crate::proofs::Unroll::few_rounds))]
pub(crate) fn muldiv_nets(
    b: &Builder,
    pool: &mut Pool,
    unroll: u32,
    w: ExecInputs,
    mark: u32,
) -> MuldivNets
    requires least { 1 ≤ unroll }
    requires most { unroll ≤ 4 }
    requires spare { 260 ≤ pool.old.spare }
    requires few { mark + 4 < 2 ^ 32 }
    requires inputs { AreInputs b.now.design b.now.entry (exec_list w) (input_shapes Exec) }
    requires mark { IsOpenReg b.now.design b.now.entry mark 1 (Some 0) }
    requires count { IsOpenReg b.now.design b.now.entry (mark + 1) 6 None }
    requires hi { IsOpenReg b.now.design b.now.entry (mark + 1 + 1) 32 None }
    requires lo { IsOpenReg b.now.design b.now.entry (mark + 1 + 1 + 1) 32 None }
    ensures ends { (env : Env) → value_in env pool.new result.ends ≡ ends_of (rounds_of unroll) (env.regs mark) (env.regs (mark + 1)) }
    ensures value { (env : Env) → value_in env pool.new result.value ≡ env.regs (mark + 1 + 1 + 1) }
    ensures count { (env : Env) → value_in env pool.new result.count ≡ count_next (env.regs mark) (env.regs (mark + 1)) }
    ensures hi { (env : Env) → value_in env pool.new result.hi
        ≡ hi_next unroll (rounds_of unroll) (env.wires w.word) (env.wires w.b) (env.regs mark) (env.regs (mark + 1)) (env.regs (mark + 1 + 1)) (env.regs (mark + 1 + 1 + 1)) }
    ensures lo { (env : Env) → value_in env pool.new result.lo
        ≡ lo_next unroll (rounds_of unroll) (env.wires w.word) (env.wires w.a) (env.wires w.b) (env.regs mark) (env.regs (mark + 1)) (env.regs (mark + 1 + 1)) (env.regs (mark + 1 + 1 + 1)) }
    ensures ends_net { Is pool.new result.ends 1 4 }
    ensures value_net { Is pool.new result.value 32 4 }
    ensures count_net { Is pool.new result.count 6 4 }
    ensures hi_net { Is pool.new result.hi 32 4 }
    ensures lo_net { Is pool.new result.lo 32 4 }
    ensures ends_scope { IsIn (scope_of b.now.design) pool.new result.ends }
    ensures value_scope { IsIn (scope_of b.now.design) pool.new result.value }
    ensures count_scope { IsIn (scope_of b.now.design) pool.new result.count }
    ensures hi_scope { IsIn (scope_of b.now.design) pool.new result.hi }
    ensures lo_scope { IsIn (scope_of b.now.design) pool.new result.lo }
    ensures step { Step pool.old pool.new 260 }
{
    let rounds = u64::from(32 / unroll);
    let word = wire_net(b, pool, w.word);
    let left = wire_net(b, pool, w.a);
    let right = wire_net(b, pool, w.b);
    let busy = reg_net(b, pool, mark);
    let count = reg_net(b, pool, mark + 1);
    let hi = reg_net(b, pool, mark + 1 + 1);
    let lo = reg_net(b, pool, mark + 1 + 1 + 1);
    let ends = ends(pool, rounds, busy, count);
    let next_count = next_count(pool, busy, count);
    let (next_hi, next_lo) = next_halves(
        pool, unroll, rounds, word, left, right, busy, count, hi, lo,
    );
    MuldivNets {
        ends,
        value: lo,
        count: next_count,
        hi: next_hi,
        lo: next_lo,
    }
}
