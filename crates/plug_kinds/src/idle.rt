ghost use Rattle.std.specs.Prelude.{◌≡◌, [], ℕ, Option, None, IfSome, IsSome};
ghost use Rattle.stage_map.specs.declared.config.PlugEntry.{PlugEntry};
ghost use Rattle.plug_api.specs.Spec.{IsSpec};
ghost use Rattle.plug_kinds.specs.Nothing.{IsIdle};
ghost use Rattle.plug_kinds.specs.Kinds.{fault_in};

use crate::fit::is_spec;
use crate::plain::PlainState;
use hw_pool::Pool;
use plug_api::{ParamFault, Plan, PlugSpec, Plugin};
use plug_build::Builder;
use service_ports::Registry;
use stage_map::PlugEntry;
use std::alloc::Global;

/// A plug-in that builds nothing and takes no parameter: it may need services and use keys, and has a cost. For tests of the
/// rules.
#[derive(Debug, Drop)]
pub struct Idle {
    state: PlainState,
    ghost idle: { state.spec.offers ≡ [] },
}

impl Idle {
    /// The plug-in that says this of itself, where a plug-in may, and it offers nothing.
    pub fn of(spec: PlugSpec) -> Option<Idle>
        ensures some { spec.offers ≡ [] → IsSpec spec → IsSome result }
        ensures name { IfSome result (λ b. ⟦<Idle as Plugin>⟧.kind b ≡ spec.name) }
        ensures taken { IfSome result (λ b. ⟦<Idle as Plugin>⟧.taken b ≡ None) }
        ensures spec { IfSome result (λ b. ⟦<Idle as Plugin>⟧.spec_now b ≡ spec) }
        ensures fault { IfSome result (λ b. (e : PlugEntry) → ⟦<Idle as Plugin>⟧.first_fault b e ≡ fault_in [] e.params) }
        ensures then { IfSome result (λ b. (e : PlugEntry) → ⟦<Idle as Plugin>⟧.spec_taken b e ≡ spec) }
    {
        if spec.offers.items().is_empty() && is_spec(&spec) {
            let state = PlainState::new(spec);
            return Some(Idle { state });
        }
        None
    }
}

impl Plugin for Idle {
    ghost kind = { λ b. b.state.spec.name };

    ghost taken = { λ b. b.state.taken };

    ghost spec_now = { λ b. b.state.spec };

    ghost first_fault = { λ b e. fault_in [] e.params };

    ghost spec_taken = { λ b e. b.state.spec };

    ghost begun = { λ b plan p. IsIdle p };

    ghost builds = { λ b plan p. IsIdle p };

    ghost begun_for = { λ b e plan p. IsIdle p };

    ghost builds_for = { λ b e plan p. IsIdle p };

    fn spec(&self) -> &PlugSpec {
        self.state.spec()
    }

    fn configure(&mut self, alloc: Global, entry: &PlugEntry) -> Result<(), ParamFault> {
        self.state.configure(alloc, entry)
    }

    fn early(&self, b: &mut Builder, pool: &mut Pool, plan: &Plan, reg: &mut Registry) {}

    fn late(&self, b: &mut Builder, pool: &mut Pool, plan: &Plan, reg: &Registry) {}
}
