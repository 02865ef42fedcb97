ghost use Rattle.std.specs.Prelude.{◌≡◌, [], IfOk, None};
ghost use Rattle.stage_map.specs.declared.config.PlugEntry.{PlugEntry};
ghost use Rattle.plug_kinds.specs.declared.kind.Kind.TheVariants as kind;
ghost use Rattle.plug_kinds.specs.Kinds.{fault_of, params_of, row_of, spec_of};
ghost use Rattle.plug_dbus.specs.Builds.{BuildsDbus};

use crate::build::build_all;
use crate::regs::make_regs;
use hw_pool::Pool;
use plug_api::{ParamFault, Plan, PlugSpec, Plugin};
use plug_build::Builder;
use plug_kinds::{Kind, KindState};
use plug_kit::exec_inputs;
use service_ports::{DataBusPorts, Registry};
use stage_map::PlugEntry;
use std::alloc::{AllocError, Global};

/// The unit of loads, stores and FENCE as a plug-in, which offers Exec and DataBus, and works in the stage that commits. It takes no
/// parameter.
#[derive(Debug, Drop)]
pub struct Dbus {
    state: KindState,
    ghost is_dbus: { state.kind ≡ kind.Dbus },
}

impl Dbus {
    /// The unit, which took no entry yet.
    ///
    /// # Errors
    /// `AllocError` where memory was refused.
    pub fn new(alloc: Global) -> Result<Dbus, AllocError>
        ensures name { IfOk result (λ b. ⟦<Dbus as Plugin>⟧.kind b ≡ (row_of kind.Dbus).name) }
        ensures taken { IfOk result (λ b. ⟦<Dbus as Plugin>⟧.taken b ≡ None) }
        ensures spec { IfOk result (λ b. ⟦<Dbus as Plugin>⟧.spec_now b ≡ spec_of kind.Dbus []) }
        ensures fault { IfOk result (λ b. (e : PlugEntry) → ⟦<Dbus as Plugin>⟧.first_fault b e ≡ fault_of kind.Dbus e.params) }
        ensures then { IfOk result (λ b. (e : PlugEntry) → ⟦<Dbus as Plugin>⟧.spec_taken b e ≡ spec_of kind.Dbus e.params) }
    {
        let state = KindState::new(alloc, Kind::Dbus)?;
        Ok(Dbus { state })
    }
}

impl Plugin for Dbus {
    ghost use Rattle.plug_dbus.specs.Builds.{BuildsDbus};
    ghost use Rattle.plug_kinds.specs.declared.kind.Kind.TheVariants as kind;
    ghost use Rattle.plug_kinds.specs.Kinds.{fault_of, params_of, row_of, spec_of};

    ghost kind = { λ s. (row_of kind.Dbus).name };

    ghost taken = { λ s. s.state.taken };

    ghost spec_now = { λ s. spec_of kind.Dbus (params_of s.state.taken) };

    ghost first_fault = { λ s e. fault_of kind.Dbus e.params };

    ghost spec_taken = { λ s e. spec_of kind.Dbus e.params };

    ghost begun = { λ s plan p. BuildsDbus p };

    ghost builds = { λ s plan p. BuildsDbus p };

    ghost begun_for = { λ s e plan p. BuildsDbus p };

    ghost builds_for = { λ s e plan p. BuildsDbus p };

    fn spec(&self) -> &PlugSpec {
        self.state.spec()
    }

    fn configure(&mut self, alloc: Global, entry: &PlugEntry) -> Result<(), ParamFault> {
        self.state.configure(alloc, entry)
    }

    fn early(&self, b: &mut Builder, pool: &mut Pool, plan: &Plan, reg: &mut Registry) {
        let wires = exec_inputs(b);
        let first = make_regs(b);
        let ports = build_all(b, pool, wires, first);
        reg.offer_databus(b.entry(), DataBusPorts {});
        reg.offer_exec(b.entry(), ports);
    }

    fn late(&self, b: &mut Builder, pool: &mut Pool, plan: &Plan, reg: &Registry) {}
}
