ghost use Rattle.std.specs.Prelude.{◌≡◌, [], None, IfOk};
ghost use Rattle.stage_map.specs.declared.config.PlugEntry.{PlugEntry};
ghost use Rattle.plug_kinds.specs.declared.kind.Kind.TheVariants as kind;
ghost use Rattle.plug_kinds.specs.Kinds.{fault_of, params_of, row_of, spec_of};
ghost use Rattle.plug_predict.specs.Params.{style_of};

use crate::Style;
use crate::nets::predict_nets;
use crate::params::style_in;
use hw_pool::Pool;
use plug_api::{ParamFault, Plan, PlugSpec, Plugin};
use plug_build::Builder;
use plug_kinds::{Kind, KindState};
use plug_kit::predict_inputs;
use service_ports::Registry;
use stage_map::PlugEntry;
use std::alloc::{AllocError, Global};

/// The plug-in that offers Predict: it guesses the pc behind an instruction from its pc and its word. Its one parameter is `style`, a
/// text: `next` for the instruction that stands behind, or `static`, the default, for the target of JAL and of a branch that goes
/// backward. It keeps no state.
#[derive(Debug, Drop)]
pub struct Predict {
    state: KindState,
    style: Style,
    ghost is_predict: { state.kind ≡ kind.Predict },
    ghost has_style: { style ≡ style_of (params_of state.taken) },
}

impl Predict {
    /// The plug-in, which took no entry yet.
    ///
    /// # Errors
    /// `AllocError` where memory was refused.
    pub fn new(alloc: Global) -> Result<Predict, AllocError>
        ensures name { IfOk result (λ p. ⟦<Predict as Plugin>⟧.kind p ≡ (row_of kind.Predict).name) }
        ensures taken { IfOk result (λ p. ⟦<Predict as Plugin>⟧.taken p ≡ None) }
        ensures spec { IfOk result (λ p. ⟦<Predict as Plugin>⟧.spec_now p ≡ spec_of kind.Predict []) }
        ensures fault { IfOk result (λ p. (e : PlugEntry) → ⟦<Predict as Plugin>⟧.first_fault p e ≡ fault_of kind.Predict e.params) }
        ensures then { IfOk result (λ p. (e : PlugEntry) → ⟦<Predict as Plugin>⟧.spec_taken p e ≡ spec_of kind.Predict e.params) }
    {
        Ok(Predict {
            state: KindState::new(alloc, Kind::Predict)?,
            style: style_in(&[]),
        })
    }
}

impl Plugin for Predict {
    ghost use Rattle.plug_kinds.specs.declared.kind.Kind.TheVariants as kind;
    ghost use Rattle.plug_kinds.specs.Kinds.{fault_of, params_of, row_of, spec_of};
    ghost use Rattle.plug_predict.specs.Params.{style_of};
    ghost use Rattle.plug_predict.specs.Builds.{BeginsPredict, BuildsPredict};

    ghost kind = { λ s. (row_of kind.Predict).name };

    ghost taken = { λ s. s.state.taken };

    ghost spec_now = { λ s. spec_of kind.Predict (params_of s.state.taken) };

    ghost first_fault = { λ s e. fault_of kind.Predict e.params };

    ghost spec_taken = { λ s e. spec_of kind.Predict e.params };

    ghost begun = { λ s plan p. BeginsPredict (style_of (params_of s.state.taken)) p };

    ghost builds = { λ s plan p. BuildsPredict (style_of (params_of s.state.taken)) p };

    ghost begun_for = { λ s e plan p. BeginsPredict (style_of e.params) p };

    ghost builds_for = { λ s e plan p. BuildsPredict (style_of e.params) p };

    fn spec(&self) -> &PlugSpec {
        self.state.spec()
    }

    fn configure(&mut self, alloc: Global, entry: &PlugEntry) -> Result<(), ParamFault> {
        let style = style_in(entry.params.items().as_slice());
        self.state.configure(alloc, entry)?;
        self.style = style;
        Ok(())
    }

    fn early(&self, b: &mut Builder, pool: &mut Pool, plan: &Plan, reg: &mut Registry) {
        let inputs = predict_inputs(b);
        let ports = predict_nets(b, pool, inputs, self.style);
        reg.offer_predict(b.entry(), ports);
    }

    fn late(&self, b: &mut Builder, pool: &mut Pool, plan: &Plan, reg: &Registry) {}
}
