ghost use Rattle.std.specs.Prelude.{◌≡◌, [], None, IfOk};
ghost use Rattle.stage_map.specs.declared.config.PlugEntry.{PlugEntry};
ghost use Rattle.plug_kinds.specs.Kinds.{fault_in};
ghost use Rattle.plug_srl.specs.Says.{srl_spec};

use hw_expr::Net;
use hw_gates::{lit, slice};
use hw_pool::Pool;
use hw_words::shifted;
use plug_api::{ParamFault, Plan, PlugSpec, Plugin};
use plug_build::Builder;
use plug_kinds::PlainState;
use plug_kit::{ExecInputs, wire_net};
use service_ports::Registry;
use stage_map::PlugEntry;
use std::alloc::{AllocError, Global};
use unit_parts::{Computes, build_unit, unit_spec};

/// A unit for the row SRL. It takes no parameter, is done in the cycle in which it is asked, and never traps.
#[derive(Debug, Drop)]
pub struct Srl {
    state: PlainState,
    ghost says: { state.spec ≡ srl_spec },
}

impl Srl {
    /// The unit, which took no entry yet.
    ///
    /// # Errors
    /// `AllocError` where memory was refused.
    pub fn new(alloc: Global) -> Result<Srl, AllocError>
        ensures taken { IfOk result (λ s. ⟦<Srl as Plugin>⟧.taken s ≡ None) }
        ensures spec { IfOk result (λ s. ⟦<Srl as Plugin>⟧.spec_now s ≡ srl_spec) }
        ensures fault { IfOk result (λ s. (e : PlugEntry) → ⟦<Srl as Plugin>⟧.first_fault s e ≡ fault_in [] e.params) }
        ensures then { IfOk result (λ s. (e : PlugEntry) → ⟦<Srl as Plugin>⟧.spec_taken s e ≡ srl_spec) }
    {
        let state = PlainState::new(unit_spec(alloc, "srl", &[33], 128)?);
        Ok(Srl { state })
    }
}

impl Computes for Srl {
    ghost use Rattle.plug_srl.specs.Says.{srl_value};

    ghost value_of = { λ s. srl_value };

    ghost nodes = { λ s. 39 };

    fn value(&self, b: &Builder, pool: &mut Pool, w: ExecInputs) -> Net {
        let left = wire_net(b, pool, w.a);
        let right = wire_net(b, pool, w.b);
        let amount = slice(pool, right, 4, 0);
        let bit = lit(pool, 1, 0);
        shifted(pool, amount, bit, left)
    }
}

impl Plugin for Srl {
    ghost use Rattle.std.specs.Prelude.{[]};
    ghost use Rattle.plug_kinds.specs.Kinds.{fault_in};
    ghost use Rattle.unit_parts.specs.Computing.{BuildsComputing};
    ghost use Rattle.plug_srl.specs.Says.{srl_spec, srl_value};

    ghost kind = { λ s. srl_spec.name };

    ghost taken = { λ s. s.state.taken };

    ghost spec_now = { λ s. srl_spec };

    ghost first_fault = { λ s e. fault_in [] e.params };

    ghost spec_taken = { λ s e. srl_spec };

    ghost begun = { λ s plan p. BuildsComputing srl_value p };

    ghost builds = { λ s plan p. BuildsComputing srl_value p };

    ghost begun_for = { λ s e plan p. BuildsComputing srl_value p };

    ghost builds_for = { λ s e plan p. BuildsComputing srl_value p };

    #[tactic(auto, using(unit_parts::proofs::Says::same_spec, unit_parts::proofs::Says::same_sound))]
    fn spec(&self) -> &PlugSpec {
        self.state.spec()
    }

    fn configure(&mut self, alloc: Global, entry: &PlugEntry) -> Result<(), ParamFault> {
        self.state.configure(alloc, entry)
    }

    fn early(&self, b: &mut Builder, pool: &mut Pool, plan: &Plan, reg: &mut Registry) {
        build_unit(self, b, pool, reg);
    }

    #[tactic(auto, using(crate::proofs::Parts::parts_meet_laws, crate::proofs::Parts::parts_are_done))]
    fn late(&self, b: &mut Builder, pool: &mut Pool, plan: &Plan, reg: &Registry) {}
}
