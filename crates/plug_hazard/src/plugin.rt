ghost use Rattle.std.specs.Prelude.{◌≡◌, [], None, IfOk};
ghost use Rattle.stage_map.specs.declared.config.PlugEntry.{PlugEntry};
ghost use Rattle.plug_kinds.specs.declared.kind.Kind.TheVariants as kind;
ghost use Rattle.plug_kinds.specs.Kinds.{fault_of, row_of, spec_of};

use crate::find::find;
use crate::nets::hazard_nets;
use hw_pool::Pool;
use plug_api::{ParamFault, Plan, PlugSpec, Plugin};
use plug_build::Builder;
use plug_kinds::{Kind, KindState};
use plug_kit::hazard_inputs;
use service_ports::Registry;
use stage_map::PlugEntry;
use std::alloc::{AllocError, Global};

/// What bypasses results and holds items, as a plug-in. The parameter `bypass`, true by default, says whether the results of the
/// stages behind decode are used before they are in their registers; else each item waits for them. It needs RegFile.
#[derive(Debug, Drop)]
pub struct Hazard {
    state: KindState,
    ghost is_hazard: { state.kind ≡ kind.Hazard },
}

impl Hazard {
    /// The plug-in, which took no entry yet.
    ///
    /// # Errors
    /// `AllocError` where memory was refused.
    pub fn new(alloc: Global) -> Result<Hazard, AllocError>
        ensures name { IfOk result (λ b. ⟦<Hazard as Plugin>⟧.kind b ≡ (row_of kind.Hazard).name) }
        ensures taken { IfOk result (λ b. ⟦<Hazard as Plugin>⟧.taken b ≡ None) }
        ensures spec { IfOk result (λ b. ⟦<Hazard as Plugin>⟧.spec_now b ≡ spec_of kind.Hazard []) }
        ensures fault { IfOk result (λ b. (e : PlugEntry) → ⟦<Hazard as Plugin>⟧.first_fault b e ≡ fault_of kind.Hazard e.params) }
        ensures then { IfOk result (λ b. (e : PlugEntry) → ⟦<Hazard as Plugin>⟧.spec_taken b e ≡ spec_of kind.Hazard e.params) }
    {
        let state = KindState::new(alloc, Kind::Hazard)?;
        Ok(Hazard { state })
    }
}

impl Plugin for Hazard {
    ghost use Rattle.plug_hazard.specs.Builds.{BeginsHazard, BuildsHazard, bypassed_of};
    ghost use Rattle.plug_kinds.specs.declared.kind.Kind.TheVariants as kind;
    ghost use Rattle.plug_kinds.specs.Kinds.{fault_of, params_of, row_of, spec_of};

    ghost kind = { λ s. (row_of kind.Hazard).name };

    ghost taken = { λ s. s.state.taken };

    ghost spec_now = { λ s. spec_of kind.Hazard (params_of s.state.taken) };

    ghost first_fault = { λ s e. fault_of kind.Hazard e.params };

    ghost spec_taken = { λ s e. spec_of kind.Hazard e.params };

    ghost begun = { λ s plan p. BeginsHazard (bypassed_of (params_of s.state.taken)) p };

    ghost builds = { λ s plan p. BuildsHazard (bypassed_of (params_of s.state.taken)) p };

    ghost begun_for = { λ s e plan p. BeginsHazard (bypassed_of e.params) p };

    ghost builds_for = { λ s e plan p. BuildsHazard (bypassed_of e.params) p };

    fn spec(&self) -> &PlugSpec {
        self.state.spec()
    }

    fn configure(&mut self, alloc: Global, entry: &PlugEntry) -> Result<(), ParamFault> {
        self.state.configure(alloc, entry)
    }

    fn early(&self, b: &mut Builder, pool: &mut Pool, plan: &Plan, reg: &mut Registry) {
        let wire_a = b.wire(32, 3);
        let wire_b = b.wire(32, 3);
        let wires = hazard_inputs(b);
        let bypass = self.state.flag("bypass", true);
        let ports = hazard_nets(b, pool, wires, wire_a, wire_b, bypass);
        reg.offer_hazard(b.entry(), ports);
    }

    fn late(&self, b: &mut Builder, pool: &mut Pool, plan: &Plan, reg: &Registry) {
        let found = find(b, pool, reg);
        b.drive(pool, found.wire_a, found.a);
        b.drive(pool, found.wire_b, found.b);
    }
}
