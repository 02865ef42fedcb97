ghost use Rattle.std.specs.Prelude.{◌≡◌, ◌≤◌, ◌*◌, ◌/◌, [], None, IfOk};
ghost use Rattle.stage_map.specs.declared.config.PlugEntry.{PlugEntry};
ghost use Rattle.plug_kinds.specs.declared.kind.Kind.TheVariants as kind;
ghost use Rattle.plug_kinds.specs.Kinds.{fault_of, params_of, row_of, spec_of};
ghost use Rattle.plug_muldiv.specs.Machine.{unroll_of};

use crate::nets::muldiv_nets;
use hw_pool::Pool;
use plug_api::{ParamFault, Plan, PlugSpec, Plugin};
use plug_build::Builder;
use plug_kinds::{Kind, KindState};
use plug_kit::ExecInputs;
use service_ports::Registry;
use stage_map::PlugEntry;
use std::alloc::{AllocError, Global};
use unit_steps::{WorkNets, Works, build_working_unit, drive_regs, make_regs};

/// The unit of multiplication and division as a plug-in: the eight instructions of RV32M. Its parameter `unroll` is 1, 2 or 4, 1
/// where none is given, and says how many steps it makes in a cycle; an instruction takes 32 / `unroll` + 3 cycles. It never traps.
#[derive(Debug, Drop)]
pub struct Muldiv {
    state: KindState,
    ghost is_muldiv: { state.kind ≡ kind.Muldiv },
    ghost faultless: { fault_of kind.Muldiv (params_of state.taken) ≡ None },
}

impl Muldiv {
    /// The unit, which took no entry yet.
    ///
    /// # Errors
    /// `AllocError` where memory was refused.
    pub fn new(alloc: Global) -> Result<Muldiv, AllocError>
        ensures name { IfOk result (λ b. ⟦<Muldiv as Plugin>⟧.kind b ≡ (row_of kind.Muldiv).name) }
        ensures taken { IfOk result (λ b. ⟦<Muldiv as Plugin>⟧.taken b ≡ None) }
        ensures spec { IfOk result (λ b. ⟦<Muldiv as Plugin>⟧.spec_now b ≡ spec_of kind.Muldiv []) }
        ensures fault { IfOk result (λ b. (e : PlugEntry) → ⟦<Muldiv as Plugin>⟧.first_fault b e ≡ fault_of kind.Muldiv e.params) }
        ensures then { IfOk result (λ b. (e : PlugEntry) → ⟦<Muldiv as Plugin>⟧.spec_taken b e ≡ spec_of kind.Muldiv e.params) }
    {
        let state = KindState::new(alloc, Kind::Muldiv)?;
        Ok(Muldiv { state })
    }

    /// How many steps it makes in a cycle.
    #[tactic(auto, using(plug_kinds::proofs::Bounds::unroll_least, plug_kinds::proofs::Bounds::unroll_most))]
    fn unroll(&self) -> u32
        ensures is { result ≡ unroll_of (params_of self.now.state.taken) }
        ensures least { 1 ≤ result }
        ensures most { result ≤ 4 }
    {
        self.state.number("unroll", 1) as u32
    }
}

impl Works for Muldiv {
    ghost use Rattle.plug_kinds.specs.Kinds.{params_of};
    ghost use Rattle.plug_muldiv.specs.Machine.{machine_of, muldiv_widths, unroll_of};

    ghost machine = { λ s. machine_of (unroll_of (params_of s.state.taken)) };

    ghost widths = { λ s. muldiv_widths };

    ghost nodes = { λ s. 260 };

    fn registers(&self, b: &mut Builder) {
        make_regs(b, &[6, 32, 32]);
    }

    fn circuit(&self, b: &mut Builder, pool: &mut Pool, w: ExecInputs, mark: u32) -> WorkNets {
        let unroll = self.unroll();
        let nets = muldiv_nets(b, pool, unroll, w, mark);
        drive_regs(b, pool, mark + 1, &[nets.count, nets.hi, nets.lo]);
        WorkNets {
            ends: nets.ends,
            value: nets.value,
        }
    }
}

impl Plugin for Muldiv {
    ghost use Rattle.plug_kinds.specs.declared.kind.Kind.TheVariants as kind;
    ghost use Rattle.plug_kinds.specs.Kinds.{fault_of, params_of, row_of, spec_of};
    ghost use Rattle.plug_muldiv.specs.Builds.{BuildsMuldiv};

    ghost kind = { λ s. (row_of kind.Muldiv).name };

    ghost taken = { λ s. s.state.taken };

    ghost spec_now = { λ s. spec_of kind.Muldiv (params_of s.state.taken) };

    ghost first_fault = { λ s e. fault_of kind.Muldiv e.params };

    ghost spec_taken = { λ s e. spec_of kind.Muldiv e.params };

    ghost begun = { λ s plan p. BuildsMuldiv (params_of s.state.taken) p };

    ghost builds = { λ s plan p. BuildsMuldiv (params_of s.state.taken) p };

    ghost begun_for = { λ s e plan p. BuildsMuldiv e.params p };

    ghost builds_for = { λ s e plan p. BuildsMuldiv e.params p };

    fn spec(&self) -> &PlugSpec {
        self.state.spec()
    }

    fn configure(&mut self, alloc: Global, entry: &PlugEntry) -> Result<(), ParamFault> {
        self.state.configure(alloc, entry)
    }

    fn early(&self, b: &mut Builder, pool: &mut Pool, plan: &Plan, reg: &mut Registry) {
        build_working_unit(self, b, pool, reg);
    }

    fn late(&self, b: &mut Builder, pool: &mut Pool, plan: &Plan, reg: &Registry) {}
}
