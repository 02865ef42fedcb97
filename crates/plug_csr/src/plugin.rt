ghost use Rattle.std.specs.Prelude.{◌≡◌, [], IfOk, None};
ghost use Rattle.stage_map.specs.declared.config.PlugEntry.{PlugEntry};
ghost use Rattle.plug_kinds.specs.declared.kind.Kind.TheVariants as kind;
ghost use Rattle.plug_kinds.specs.Kinds.{fault_of, params_of, row_of, spec_of};
ghost use Rattle.isa_model.specs.Machine.{misa_of};
ghost use Rattle.plug_part.specs.Terms.{set_from};
ghost use Rattle.plug_csr.specs.Builds.{BuildsCsr};

use crate::build::build_all;
use crate::isa::misa_for;
use crate::regs::make_regs;
use hw_pool::Pool;
use plug_api::{ParamFault, Plan, PlugSpec, Plugin};
use plug_build::Builder;
use plug_kinds::{Kind, KindState};
use plug_kit::{exec_inputs, system_inputs};
use service_ports::Registry;
use stage_map::PlugEntry;
use std::alloc::{AllocError, Global};

/// The unit of CSR accesses, MRET and WFI as a plug-in, which offers Exec and System, and works in the stage that commits. It takes no
/// parameter.
#[derive(Debug, Drop)]
pub struct Csr {
    state: KindState,
    ghost is_csr: { state.kind ≡ kind.Csr },
}

impl Csr {
    /// The unit, which took no entry yet.
    ///
    /// # Errors
    /// `AllocError` where memory was refused.
    pub fn new(alloc: Global) -> Result<Csr, AllocError>
        ensures name { IfOk result (λ b. ⟦<Csr as Plugin>⟧.kind b ≡ (row_of kind.Csr).name) }
        ensures taken { IfOk result (λ b. ⟦<Csr as Plugin>⟧.taken b ≡ None) }
        ensures spec { IfOk result (λ b. ⟦<Csr as Plugin>⟧.spec_now b ≡ spec_of kind.Csr []) }
        ensures fault { IfOk result (λ b. (e : PlugEntry) → ⟦<Csr as Plugin>⟧.first_fault b e ≡ fault_of kind.Csr e.params) }
        ensures then { IfOk result (λ b. (e : PlugEntry) → ⟦<Csr as Plugin>⟧.spec_taken b e ≡ spec_of kind.Csr e.params) }
    {
        let state = KindState::new(alloc, Kind::Csr)?;
        Ok(Csr { state })
    }
}

impl Plugin for Csr {
    ghost use Rattle.isa_model.specs.Machine.{misa_of};
    ghost use Rattle.plug_part.specs.Terms.{set_from};
    ghost use Rattle.plug_csr.specs.Builds.{BuildsCsr};
    ghost use Rattle.plug_kinds.specs.declared.kind.Kind.TheVariants as kind;
    ghost use Rattle.plug_kinds.specs.Kinds.{fault_of, params_of, row_of, spec_of};

    ghost kind = { λ s. (row_of kind.Csr).name };

    ghost taken = { λ s. s.state.taken };

    ghost spec_now = { λ s. spec_of kind.Csr (params_of s.state.taken) };

    ghost first_fault = { λ s e. fault_of kind.Csr e.params };

    ghost spec_taken = { λ s e. spec_of kind.Csr e.params };

    ghost begun = { λ s plan p. BuildsCsr (misa_of (set_from plan.rows plan.has_csr)) p };

    ghost builds = { λ s plan p. BuildsCsr (misa_of (set_from plan.rows plan.has_csr)) p };

    ghost begun_for = { λ s e plan p. BuildsCsr (misa_of (set_from plan.rows plan.has_csr)) p };

    ghost builds_for = { λ s e plan p. BuildsCsr (misa_of (set_from plan.rows plan.has_csr)) p };

    fn spec(&self) -> &PlugSpec {
        self.state.spec()
    }

    fn configure(&mut self, alloc: Global, entry: &PlugEntry) -> Result<(), ParamFault> {
        self.state.configure(alloc, entry)
    }

    fn early(&self, b: &mut Builder, pool: &mut Pool, plan: &Plan, reg: &mut Registry) {
        let wires = exec_inputs(b);
        let events = system_inputs(b);
        let first = make_regs(b);
        let misa = misa_for(plan);
        let ports = build_all(b, pool, misa, wires, events, first);
        reg.offer_system(b.entry(), ports.system);
        reg.offer_exec(b.entry(), ports.exec);
    }

    fn late(&self, b: &mut Builder, pool: &mut Pool, plan: &Plan, reg: &Registry) {}
}
