ghost use Rattle.std.specs.Prelude.{◌≡◌, [], None, IfOk};
ghost use Rattle.stage_map.specs.declared.config.PlugEntry.{PlugEntry};
ghost use Rattle.plug_kinds.specs.declared.kind.Kind.TheVariants as kind;
ghost use Rattle.plug_kinds.specs.Kinds.{fault_of, row_of, spec_of};

use crate::circuit::barrel;
use hw_expr::Net;
use hw_pool::Pool;
use plug_api::{ParamFault, Plan, PlugSpec, Plugin};
use plug_build::Builder;
use plug_kinds::{Kind, KindState};
use plug_kit::{ExecInputs, wire_net};
use service_ports::Registry;
use stage_map::PlugEntry;
use std::alloc::{AllocError, Global};
use unit_parts::{Computes, build_unit};

/// The barrel shifter as a plug-in: the six shifts of RV32I, in one right shifter. It takes no parameter. It is done in the cycle in
/// which it is asked, and never traps.
#[derive(Debug, Drop)]
pub struct ShiftBarrel {
    state: KindState,
    ghost is_barrel: { state.kind ≡ kind.ShiftBarrel },
}

impl ShiftBarrel {
    /// The unit, which took no entry yet.
    ///
    /// # Errors
    /// `AllocError` where memory was refused.
    pub fn new(alloc: Global) -> Result<ShiftBarrel, AllocError>
        ensures name { IfOk result (λ b. ⟦<ShiftBarrel as Plugin>⟧.kind b ≡ (row_of kind.ShiftBarrel).name) }
        ensures taken { IfOk result (λ b. ⟦<ShiftBarrel as Plugin>⟧.taken b ≡ None) }
        ensures spec { IfOk result (λ b. ⟦<ShiftBarrel as Plugin>⟧.spec_now b ≡ spec_of kind.ShiftBarrel []) }
        ensures fault { IfOk result (λ b. (e : PlugEntry) → ⟦<ShiftBarrel as Plugin>⟧.first_fault b e ≡ fault_of kind.ShiftBarrel e.params) }
        ensures then { IfOk result (λ b. (e : PlugEntry) → ⟦<ShiftBarrel as Plugin>⟧.spec_taken b e ≡ spec_of kind.ShiftBarrel e.params) }
    {
        let state = KindState::new(alloc, Kind::ShiftBarrel)?;
        Ok(ShiftBarrel { state })
    }
}

impl Computes for ShiftBarrel {
    ghost use Rattle.plug_shift.specs.Machine.{barrel_value};

    ghost value_of = { λ s. barrel_value };

    ghost nodes = { λ s. 175 };

    fn value(&self, b: &Builder, pool: &mut Pool, w: ExecInputs) -> Net {
        let word = wire_net(b, pool, w.word);
        let left = wire_net(b, pool, w.a);
        let right = wire_net(b, pool, w.b);
        barrel(pool, word, left, right)
    }
}

impl Plugin for ShiftBarrel {
    ghost use Rattle.plug_kinds.specs.declared.kind.Kind.TheVariants as kind;
    ghost use Rattle.plug_kinds.specs.Kinds.{fault_of, params_of, row_of, spec_of};
    ghost use Rattle.unit_parts.specs.Computing.{BuildsComputing};
    ghost use Rattle.plug_shift.specs.Machine.{barrel_value};

    ghost kind = { λ s. (row_of kind.ShiftBarrel).name };

    ghost taken = { λ s. s.state.taken };

    ghost spec_now = { λ s. spec_of kind.ShiftBarrel (params_of s.state.taken) };

    ghost first_fault = { λ s e. fault_of kind.ShiftBarrel e.params };

    ghost spec_taken = { λ s e. spec_of kind.ShiftBarrel e.params };

    ghost begun = { λ s plan p. BuildsComputing barrel_value p };

    ghost builds = { λ s plan p. BuildsComputing barrel_value p };

    ghost begun_for = { λ s e plan p. BuildsComputing barrel_value p };

    ghost builds_for = { λ s e plan p. BuildsComputing barrel_value p };

    fn spec(&self) -> &PlugSpec {
        self.state.spec()
    }

    fn configure(&mut self, alloc: Global, entry: &PlugEntry) -> Result<(), ParamFault> {
        self.state.configure(alloc, entry)
    }

    fn early(&self, b: &mut Builder, pool: &mut Pool, plan: &Plan, reg: &mut Registry) {
        build_unit(self, b, pool, reg);
    }

    fn late(&self, b: &mut Builder, pool: &mut Pool, plan: &Plan, reg: &Registry) {}
}
