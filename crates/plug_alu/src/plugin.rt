ghost use Rattle.std.specs.Prelude.{◌≡◌, [], None, IfOk};
ghost use Rattle.stage_map.specs.declared.config.PlugEntry.{PlugEntry};
ghost use Rattle.plug_kinds.specs.declared.kind.Kind.TheVariants as kind;
ghost use Rattle.plug_kinds.specs.Kinds.{fault_of, row_of, spec_of};

use crate::nets::alu_nets;
use hw_pool::Pool;
use plug_api::{ParamFault, Plan, PlugSpec, Plugin};
use plug_build::Builder;
use plug_kinds::{Kind, KindState};
use plug_kit::exec_inputs;
use service_ports::Registry;
use stage_map::PlugEntry;
use std::alloc::{AllocError, Global};

/// The integer unit as a plug-in: the computations of RV32I on registers and immediates, LUI and AUIPC (RISC-V Unprivileged
/// 20191213, 2.4). It takes no parameter. It is done in the cycle in which it is asked, and never traps.
#[derive(Debug, Drop)]
pub struct Alu {
    state: KindState,
    ghost is_alu: { state.kind ≡ kind.Alu },
}

impl Alu {
    /// The unit, which took no entry yet.
    ///
    /// # Errors
    /// `AllocError` where memory was refused.
    pub fn new(alloc: Global) -> Result<Alu, AllocError>
        ensures name { IfOk result (λ b. ⟦<Alu as Plugin>⟧.kind b ≡ (row_of kind.Alu).name) }
        ensures taken { IfOk result (λ b. ⟦<Alu as Plugin>⟧.taken b ≡ None) }
        ensures spec { IfOk result (λ b. ⟦<Alu as Plugin>⟧.spec_now b ≡ spec_of kind.Alu []) }
        ensures fault { IfOk result (λ b. (e : PlugEntry) → ⟦<Alu as Plugin>⟧.first_fault b e ≡ fault_of kind.Alu e.params) }
        ensures then { IfOk result (λ b. (e : PlugEntry) → ⟦<Alu as Plugin>⟧.spec_taken b e ≡ spec_of kind.Alu e.params) }
    {
        let state = KindState::new(alloc, Kind::Alu)?;
        Ok(Alu { state })
    }
}

impl Plugin for Alu {
    ghost use Rattle.plug_alu.specs.Builds.{BeginsAlu, BuildsAlu};
    ghost use Rattle.plug_kinds.specs.declared.kind.Kind.TheVariants as kind;
    ghost use Rattle.plug_kinds.specs.Kinds.{fault_of, params_of, row_of, spec_of};

    ghost kind = { λ s. (row_of kind.Alu).name };

    ghost taken = { λ s. s.state.taken };

    ghost spec_now = { λ s. spec_of kind.Alu (params_of s.state.taken) };

    ghost first_fault = { λ s e. fault_of kind.Alu e.params };

    ghost spec_taken = { λ s e. spec_of kind.Alu e.params };

    ghost begun = { λ s plan p. BeginsAlu p };

    ghost builds = { λ s plan p. BuildsAlu p };

    ghost begun_for = { λ s e plan p. BeginsAlu p };

    ghost builds_for = { λ s e plan p. BuildsAlu p };

    fn spec(&self) -> &PlugSpec {
        self.state.spec()
    }

    fn configure(&mut self, alloc: Global, entry: &PlugEntry) -> Result<(), ParamFault> {
        self.state.configure(alloc, entry)
    }

    fn early(&self, b: &mut Builder, pool: &mut Pool, plan: &Plan, reg: &mut Registry) {
        let wires = exec_inputs(b);
        let ports = alu_nets(b, pool, wires);
        reg.offer_exec(b.entry(), ports);
    }

    fn late(&self, b: &mut Builder, pool: &mut Pool, plan: &Plan, reg: &Registry) {}
}
