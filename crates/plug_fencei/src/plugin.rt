ghost use Rattle.std.specs.Prelude.{◌≡◌, [], None, IfOk};
ghost use Rattle.stage_map.specs.declared.config.PlugEntry.{PlugEntry};
ghost use Rattle.plug_kinds.specs.declared.kind.Kind.TheVariants as kind;
ghost use Rattle.plug_kinds.specs.Kinds.{fault_of, row_of, spec_of};

use crate::nets::fencei_nets;
use hw_pool::Pool;
use plug_api::{ParamFault, Plan, PlugSpec, Plugin};
use plug_build::Builder;
use plug_kinds::{Kind, KindState};
use plug_kit::exec_inputs;
use service_ports::Registry;
use stage_map::PlugEntry;
use std::alloc::{AllocError, Global};

/// The unit of FENCE.I as a plug-in (RISC-V Unprivileged 20191213, chapter 3). It takes no parameter, needs Fetch, and is done in the
/// cycle in which it is asked.
#[derive(Debug, Drop)]
pub struct Fencei {
    state: KindState,
    ghost is_fencei: { state.kind ≡ kind.Fencei },
}

impl Fencei {
    /// The unit, which took no entry yet.
    ///
    /// # Errors
    /// `AllocError` where memory was refused.
    pub fn new(alloc: Global) -> Result<Fencei, AllocError>
        ensures name { IfOk result (λ b. ⟦<Fencei as Plugin>⟧.kind b ≡ (row_of kind.Fencei).name) }
        ensures taken { IfOk result (λ b. ⟦<Fencei as Plugin>⟧.taken b ≡ None) }
        ensures spec { IfOk result (λ b. ⟦<Fencei as Plugin>⟧.spec_now b ≡ spec_of kind.Fencei []) }
        ensures fault { IfOk result (λ b. (e : PlugEntry) → ⟦<Fencei as Plugin>⟧.first_fault b e ≡ fault_of kind.Fencei e.params) }
        ensures then { IfOk result (λ b. (e : PlugEntry) → ⟦<Fencei as Plugin>⟧.spec_taken b e ≡ spec_of kind.Fencei e.params) }
    {
        let state = KindState::new(alloc, Kind::Fencei)?;
        Ok(Fencei { state })
    }
}

impl Plugin for Fencei {
    ghost use Rattle.plug_fencei.specs.Builds.{BeginsFencei, BuildsFencei};
    ghost use Rattle.plug_kinds.specs.declared.kind.Kind.TheVariants as kind;
    ghost use Rattle.plug_kinds.specs.Kinds.{fault_of, params_of, row_of, spec_of};

    ghost kind = { λ s. (row_of kind.Fencei).name };

    ghost taken = { λ s. s.state.taken };

    ghost spec_now = { λ s. spec_of kind.Fencei (params_of s.state.taken) };

    ghost first_fault = { λ s e. fault_of kind.Fencei e.params };

    ghost spec_taken = { λ s e. spec_of kind.Fencei e.params };

    ghost begun = { λ s plan p. BeginsFencei p };

    ghost builds = { λ s plan p. BuildsFencei p };

    ghost begun_for = { λ s e plan p. BeginsFencei p };

    ghost builds_for = { λ s e plan p. BuildsFencei p };

    fn spec(&self) -> &PlugSpec {
        self.state.spec()
    }

    fn configure(&mut self, alloc: Global, entry: &PlugEntry) -> Result<(), ParamFault> {
        self.state.configure(alloc, entry)
    }

    fn early(&self, b: &mut Builder, pool: &mut Pool, plan: &Plan, reg: &mut Registry) {
        let wires = exec_inputs(b);
        let ports = fencei_nets(b, pool, wires);
        reg.offer_exec(b.entry(), ports);
    }

    fn late(&self, b: &mut Builder, pool: &mut Pool, plan: &Plan, reg: &Registry) {}
}
