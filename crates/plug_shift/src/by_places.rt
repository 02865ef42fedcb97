ghost use Rattle.std.specs.Prelude.{◌≡◌, ℕ, ◌+◌, ◌^◌, ◌≤◌, ◌<◌, [], None, Some, IfOk, eqb, length};
ghost use Rattle.stage_map.specs.declared.config.PlugEntry.{PlugEntry};
ghost use Rattle.hw_gates.specs.Places.{Is, IsIn, Step, value_in};
ghost use Rattle.hw_module.specs.Scope.{scope_of};
ghost use Rattle.hw_pool.specs.Meaning.{Env};
ghost use Rattle.plug_build.specs.Fits.{AreInputs};
ghost use Rattle.plug_kinds.specs.declared.kind.Kind.TheVariants as kind;
ghost use Rattle.plug_kinds.specs.Kinds.{fault_of, row_of, spec_of};
ghost use Rattle.plug_kit.specs.Made.{exec_list};
ghost use Rattle.service_ports.specs.Ports.{input_shapes};
ghost use Rattle.service_reg.specs.declared.service.Service.TheVariants.{Exec};
ghost use Rattle.unit_steps.specs.Registers.{IsOpenReg};
ghost use Rattle.core_words.specs.Values.{one_if, sub_of};
ghost use Rattle.plug_shift.specs.Machine.{left_of, moved_of, now_of};

use crate::steps::{is_none, left, moved, now, one_less};
use hw_expr::Net;
use hw_pool::Pool;
use plug_api::{ParamFault, Plan, PlugSpec, Plugin};
use plug_build::Builder;
use plug_kinds::{Kind, KindState};
use plug_kit::{ExecInputs, reg_net, wire_net};
use service_ports::Registry;
use stage_map::PlugEntry;
use std::alloc::{AllocError, Global};
use unit_steps::{WorkNets, Works, build_working_unit, drive_regs, make_regs};

/// The light shifter as a plug-in: the six shifts of RV32I, one place in each cycle. It takes no parameter. A shift by n places
/// takes n + 1 cycles. It never traps.
#[derive(Debug, Drop)]
pub struct ShiftLight {
    state: KindState,
    ghost is_light: { state.kind ≡ kind.ShiftLight },
}

impl ShiftLight {
    /// The unit, which took no entry yet.
    ///
    /// # Errors
    /// `AllocError` where memory was refused.
    pub fn new(alloc: Global) -> Result<ShiftLight, AllocError>
        ensures name { IfOk result (λ b. ⟦<ShiftLight as Plugin>⟧.kind b ≡ (row_of kind.ShiftLight).name) }
        ensures taken { IfOk result (λ b. ⟦<ShiftLight as Plugin>⟧.taken b ≡ None) }
        ensures spec { IfOk result (λ b. ⟦<ShiftLight as Plugin>⟧.spec_now b ≡ spec_of kind.ShiftLight []) }
        ensures fault { IfOk result (λ b. (e : PlugEntry) → ⟦<ShiftLight as Plugin>⟧.first_fault b e ≡ fault_of kind.ShiftLight e.params) }
        ensures then { IfOk result (λ b. (e : PlugEntry) → ⟦<ShiftLight as Plugin>⟧.spec_taken b e ≡ spec_of kind.ShiftLight e.params) }
    {
        let state = KindState::new(alloc, Kind::ShiftLight)?;
        Ok(ShiftLight { state })
    }
}

/// The nets of the unit: its last cycle, what was moved so far, and the next values of both registers.
#[derive(Clone, Copy, Debug, PartialEq, Eq)]
pub(crate) struct LightNets {
    pub(crate) ends: Net,
    pub(crate) value: Net,
    pub(crate) count: Net,
    pub(crate) held: Net,
}

/// The circuit over the inputs of Exec, the mark of a shift at work, and the two registers behind it.
pub(crate) fn light_nets(b: &Builder, pool: &mut Pool, w: ExecInputs, mark: u32) -> LightNets
    requires spare { 26 ≤ pool.old.spare }
    requires few { length b.now.design.regs < 2 ^ 32 }
    requires inputs { AreInputs b.now.design b.now.entry (exec_list w) (input_shapes Exec) }
    requires mark { IsOpenReg b.now.design b.now.entry mark 1 (Some 0) }
    requires count { IsOpenReg b.now.design b.now.entry (mark + 1) 5 None }
    requires held { IsOpenReg b.now.design b.now.entry (mark + 1 + 1) 32 None }
    ensures ends { (env : Env) → value_in env pool.new result.ends ≡ one_if (eqb (left_of (env.wires w.word) (env.wires w.b) (env.regs mark) (env.regs (mark + 1))) 0) }
    ensures value { (env : Env) → value_in env pool.new result.value ≡ now_of (env.wires w.a) (env.regs mark) (env.regs (mark + 1 + 1)) }
    ensures count { (env : Env) → value_in env pool.new result.count ≡ sub_of 5 (left_of (env.wires w.word) (env.wires w.b) (env.regs mark) (env.regs (mark + 1))) 1 }
    ensures held { (env : Env) → value_in env pool.new result.held ≡ moved_of (env.wires w.word) (now_of (env.wires w.a) (env.regs mark) (env.regs (mark + 1 + 1))) }
    ensures ends_net { Is pool.new result.ends 1 4 }
    ensures value_net { Is pool.new result.value 32 4 }
    ensures count_net { Is pool.new result.count 5 4 }
    ensures held_net { Is pool.new result.held 32 4 }
    ensures ends_scope { IsIn (scope_of b.now.design) pool.new result.ends }
    ensures value_scope { IsIn (scope_of b.now.design) pool.new result.value }
    ensures count_scope { IsIn (scope_of b.now.design) pool.new result.count }
    ensures held_scope { IsIn (scope_of b.now.design) pool.new result.held }
    ensures step { Step pool.old pool.new 26 }
{
    let word = wire_net(b, pool, w.word);
    let a = wire_net(b, pool, w.a);
    let amount = wire_net(b, pool, w.b);
    let working = reg_net(b, pool, mark);
    let count = reg_net(b, pool, mark + 1);
    let held = reg_net(b, pool, mark + 1 + 1);
    let places = left(pool, word, amount, working, count);
    let value = now(pool, a, working, held);
    let ends = is_none(pool, places);
    let count = one_less(pool, places);
    let held = moved(pool, word, value);
    LightNets {
        ends,
        value,
        count,
        held,
    }
}

impl Works for ShiftLight {
    ghost use Rattle.plug_shift.specs.Machine.{light_machine, light_widths};

    ghost machine = { λ s. light_machine };

    ghost widths = { λ s. light_widths };

    ghost nodes = { λ s. 26 };

    fn registers(&self, b: &mut Builder) {
        make_regs(b, &[5, 32]);
    }

    fn circuit(&self, b: &mut Builder, pool: &mut Pool, w: ExecInputs, mark: u32) -> WorkNets {
        let nets = light_nets(b, pool, w, mark);
        drive_regs(b, pool, mark + 1, &[nets.count, nets.held]);
        WorkNets {
            ends: nets.ends,
            value: nets.value,
        }
    }
}

impl Plugin for ShiftLight {
    ghost use Rattle.plug_kinds.specs.declared.kind.Kind.TheVariants as kind;
    ghost use Rattle.plug_kinds.specs.Kinds.{fault_of, params_of, row_of, spec_of};
    ghost use Rattle.unit_steps.specs.Parts.{BuildsWorking};
    ghost use Rattle.plug_shift.specs.Machine.{light_machine, light_widths};

    ghost kind = { λ s. (row_of kind.ShiftLight).name };

    ghost taken = { λ s. s.state.taken };

    ghost spec_now = { λ s. spec_of kind.ShiftLight (params_of s.state.taken) };

    ghost first_fault = { λ s e. fault_of kind.ShiftLight e.params };

    ghost spec_taken = { λ s e. spec_of kind.ShiftLight e.params };

    ghost begun = { λ s plan p. BuildsWorking light_machine light_widths p };

    ghost builds = { λ s plan p. BuildsWorking light_machine light_widths p };

    ghost begun_for = { λ s e plan p. BuildsWorking light_machine light_widths p };

    ghost builds_for = { λ s e plan p. BuildsWorking light_machine light_widths p };

    fn spec(&self) -> &PlugSpec {
        self.state.spec()
    }

    fn configure(&mut self, alloc: Global, entry: &PlugEntry) -> Result<(), ParamFault> {
        self.state.configure(alloc, entry)
    }

    fn early(&self, b: &mut Builder, pool: &mut Pool, plan: &Plan, reg: &mut Registry) {
        build_working_unit(self, b, pool, reg);
    }

    fn late(&self, b: &mut Builder, pool: &mut Pool, plan: &Plan, reg: &Registry) {}
}
