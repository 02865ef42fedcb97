ghost use Rattle.std.specs.Prelude.{◌≡◌, ℕ, ◌+◌, ◌<◌, ◌≤◌, Some, length};
ghost use Rattle.core_words.specs.Values.{choose};
ghost use Rattle.hw_pool.specs.Meaning.{Env};
ghost use Rattle.hw_gates.specs.Places.{Is, IsIn, Step, value_in};
ghost use Rattle.hw_module.specs.Checked.{DriversFit};
ghost use Rattle.hw_module.specs.Rows.{reg_at};
ghost use Rattle.hw_module.specs.Scope.{scope_of};
ghost use Rattle.plug_build.specs.Fits.{AreInputs};
ghost use Rattle.plug_kit.specs.Made.{exec_list};
ghost use Rattle.service_ports.specs.Ports.{input_shapes};
ghost use Rattle.service_reg.specs.declared.service.Service.TheVariants.{Exec};
ghost use Rattle.unit_steps.specs.Registers.{DrivesRegs, IsDrivenReg, IsOpenReg, MakesRegs};

use hw_expr::Net;
use hw_gates::{lit, mux};
use hw_pool::Pool;
use plug_build::Builder;
use plug_kit::{ExecInputs, wire_net};

/// Makes the register that marks an instruction at work, which is 0 behind a reset. It takes no memory.
pub(crate) fn make_mark(b: &mut Builder) -> u32
    requires room { 1 ≤ b.old.design.room }
    ensures number { result ≡ length b.old.design.regs }
    ensures mark { IsOpenReg b.new.design b.old.entry result 1 (Some 0) }
    ensures makes { MakesRegs 1 b.old b.new }
{
    b.reg(1, Some(0))
}

/// The mark behind a cycle: 1 where go is 1, the instruction does not end, and clear is 0.
fn mark_net(b: &Builder, pool: &mut Pool, w: ExecInputs, ends: Net) -> Net
    requires spare { 7 ≤ pool.old.spare }
    requires inputs { AreInputs b.now.design b.now.entry (exec_list w) (input_shapes Exec) }
    requires ends { Is pool.old ends 1 4 }
    requires scope { IsIn (scope_of b.now.design) pool.old ends }
    ensures value { (env : Env) → value_in env pool.new result ≡ choose (env.wires w.go) (choose (value_in env pool.old ends) 0 (choose (env.wires w.clear) 0 1)) 0 }
    ensures net { Is pool.new result 1 8 }
    ensures scope { IsIn (scope_of b.now.design) pool.new result }
    ensures step { Step pool.old pool.new 7 }
{
    let go = wire_net(b, pool, w.go);
    let clear = wire_net(b, pool, w.clear);
    let zero = lit(pool, 1, 0);
    let one = lit(pool, 1, 1);
    let kept = mux(pool, clear, zero, one);
    let still = mux(pool, ends, zero, kept);
    mux(pool, go, still, zero)
}

/// Gives the mark its next value. It takes no memory.
pub(crate) fn drive_mark(b: &mut Builder, pool: &mut Pool, w: ExecInputs, mark: u32, ends: Net)
    requires room { 1 ≤ b.old.design.room }
    requires spare { 7 ≤ pool.old.spare }
    requires inputs { AreInputs b.old.design b.old.entry (exec_list w) (input_shapes Exec) }
    requires ends { Is pool.old ends 1 4 }
    requires scope { IsIn (scope_of b.old.design) pool.old ends }
    requires mark { IsOpenReg b.old.design b.old.entry mark 1 (Some 0) }
    requires drivers { DriversFit b.old.design pool.old }
    ensures driven { IsDrivenReg b.new.design pool.new b.old.entry mark 1 (Some 0)
        (λ env. choose (env.wires w.go) (choose (value_in env pool.old ends) 0 (choose (env.wires w.clear) 0 1)) 0) }
    ensures others { (k : ℕ) → (k ≡ mark → ⊥) → reg_at b.new.design.regs k ≡ reg_at b.old.design.regs k }
    ensures drives { DrivesRegs 1 b.old b.new }
    ensures drivers { DriversFit b.new.design pool.new }
    ensures step { Step pool.old pool.new 7 }
{
    let next = mark_net(b, pool, w, ends);
    b.next(pool, mark, next);
}
