ghost use Rattle.std.specs.Prelude.{◌≡◌, [], IfOk, None};
ghost use Rattle.stage_map.specs.declared.config.PlugEntry.{PlugEntry};
ghost use Rattle.plug_kinds.specs.declared.kind.Kind.TheVariants as kind;
ghost use Rattle.plug_kinds.specs.Kinds.{fault_of, row_of, spec_of};

use crate::nets::decoder_nets;
use hw_pool::Pool;
use plug_api::{ParamFault, Plan, PlugSpec, Plugin};
use plug_build::Builder;
use plug_kinds::{Kind, KindState};
use plug_kit::decoder_inputs;
use service_ports::Registry;
use stage_map::PlugEntry;
use std::alloc::{AllocError, Global};

/// The plug-in that offers Decoder: it tells of a word the row of the table that the core has for it, and the entry that does
/// it. It takes no parameter.
#[derive(Debug, Drop)]
pub struct Decoder {
    state: KindState,
    ghost is_decoder: { state.kind ≡ kind.Decoder },
}

impl Decoder {
    /// The decoder, which took no entry yet.
    ///
    /// # Errors
    /// `AllocError` where memory was refused.
    pub fn new(alloc: Global) -> Result<Decoder, AllocError>
        ensures name { IfOk result (λ d. ⟦<Decoder as Plugin>⟧.kind d ≡ (row_of kind.Decoder).name) }
        ensures taken { IfOk result (λ d. ⟦<Decoder as Plugin>⟧.taken d ≡ None) }
        ensures spec { IfOk result (λ d. ⟦<Decoder as Plugin>⟧.spec_now d ≡ spec_of kind.Decoder []) }
        ensures fault { IfOk result (λ d. (e : PlugEntry) → ⟦<Decoder as Plugin>⟧.first_fault d e ≡ fault_of kind.Decoder e.params) }
        ensures then { IfOk result (λ d. (e : PlugEntry) → ⟦<Decoder as Plugin>⟧.spec_taken d e ≡ spec_of kind.Decoder e.params) }
    {
        Ok(Decoder {
            state: KindState::new(alloc, Kind::Decoder)?,
        })
    }
}

impl Plugin for Decoder {
    ghost use Rattle.plug_kinds.specs.declared.kind.Kind.TheVariants as kind;
    ghost use Rattle.plug_kinds.specs.Kinds.{fault_of, params_of, row_of, spec_of};
    ghost use Rattle.plug_decoder.specs.Builds.{BeginsDecoder, BuildsDecoder};

    ghost kind = { λ d. (row_of kind.Decoder).name };

    ghost taken = { λ d. d.state.taken };

    ghost spec_now = { λ d. spec_of kind.Decoder (params_of d.state.taken) };

    ghost first_fault = { λ d e. fault_of kind.Decoder e.params };

    ghost spec_taken = { λ d e. spec_of kind.Decoder e.params };

    ghost begun = { λ d plan p. BeginsDecoder plan.rows plan.owners p };

    ghost builds = { λ d plan p. BuildsDecoder plan.rows plan.owners p };

    ghost begun_for = { λ d e plan p. BeginsDecoder plan.rows plan.owners p };

    ghost builds_for = { λ d e plan p. BuildsDecoder plan.rows plan.owners p };

    fn spec(&self) -> &PlugSpec {
        self.state.spec()
    }

    fn configure(&mut self, alloc: Global, entry: &PlugEntry) -> Result<(), ParamFault> {
        self.state.configure(alloc, entry)
    }

    fn early(&self, b: &mut Builder, pool: &mut Pool, plan: &Plan, reg: &mut Registry) {
        let inputs = decoder_inputs(b);
        let rows = plan.rows.items().as_slice();
        let owners = plan.owners.items().as_slice();
        let ports = decoder_nets(b, pool, inputs, rows, owners);
        reg.offer_decoder(b.entry(), ports);
    }

    fn late(&self, b: &mut Builder, pool: &mut Pool, plan: &Plan, reg: &Registry) {}
}
