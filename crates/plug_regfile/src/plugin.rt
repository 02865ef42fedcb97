ghost use Rattle.std.specs.Prelude.{◌≡◌, [], IfOk, None};
ghost use Rattle.stage_map.specs.declared.config.PlugEntry.{PlugEntry};
ghost use Rattle.plug_kinds.specs.declared.kind.Kind.TheVariants.{Regfile};
ghost use Rattle.plug_kinds.specs.Kinds.{fault_of, params_of, row_of, spec_of};
ghost use Rattle.plug_regfile.specs.Builds.{BeginsRegFile, BuildsRegFile};

use crate::circuit::{read_cells, write_cells};
use crate::find::own_ports;
use hw_pool::Pool;
use plug_api::{ParamFault, Plan, PlugSpec, Plugin};
use plug_build::Builder;
use plug_kinds::{Kind, KindState};
use plug_kit::{own_array, regfile_inputs};
use service_ports::Registry;
use stage_map::PlugEntry;
use std::alloc::{AllocError, Global};

/// The plug-in of the registers x0 to x31, which offers RegFile. It takes no parameter. The registers start as the cells of
/// its array do, and no reset changes them.
#[derive(Debug, Drop)]
pub struct RegFile {
    state: KindState,
    ghost regfile: { state.kind ≡ Regfile },
}

impl RegFile {
    /// The plug-in, which took no entry yet.
    ///
    /// # Errors
    /// `AllocError` where memory was refused.
    pub fn new(alloc: Global) -> Result<RegFile, AllocError>
        ensures name { IfOk result (λ b. ⟦<RegFile as Plugin>⟧.kind b ≡ (row_of Regfile).name) }
        ensures taken { IfOk result (λ b. ⟦<RegFile as Plugin>⟧.taken b ≡ None) }
        ensures spec { IfOk result (λ b. ⟦<RegFile as Plugin>⟧.spec_now b ≡ spec_of Regfile []) }
        ensures fault { IfOk result (λ b. (e : PlugEntry) → ⟦<RegFile as Plugin>⟧.first_fault b e ≡ fault_of Regfile e.params) }
        ensures then { IfOk result (λ b. (e : PlugEntry) → ⟦<RegFile as Plugin>⟧.spec_taken b e ≡ spec_of Regfile e.params) }
    {
        Ok(RegFile {
            state: KindState::new(alloc, Kind::Regfile)?,
        })
    }
}

impl Plugin for RegFile {
    ghost kind = { λ s. (row_of Regfile).name };

    ghost taken = { λ s. s.state.taken };

    ghost spec_now = { λ s. spec_of Regfile (params_of s.state.taken) };

    ghost first_fault = { λ s e. fault_of Regfile e.params };

    ghost spec_taken = { λ s e. spec_of Regfile e.params };

    ghost begun = { λ s plan p. BeginsRegFile p };

    ghost builds = { λ s plan p. BuildsRegFile p };

    ghost begun_for = { λ s e plan p. BeginsRegFile p };

    ghost builds_for = { λ s e plan p. BuildsRegFile p };

    fn spec(&self) -> &PlugSpec {
        self.state.spec()
    }

    fn configure(&mut self, alloc: Global, entry: &PlugEntry) -> Result<(), ParamFault> {
        self.state.configure(alloc, entry)
    }

    fn early(&self, b: &mut Builder, pool: &mut Pool, plan: &Plan, reg: &mut Registry) {
        let wires = regfile_inputs(b);
        let array = b.array(32, 5);
        let ports = read_cells(b, pool, wires, array);
        reg.offer_regfile(b.entry(), ports);
    }

    fn late(&self, b: &mut Builder, pool: &mut Pool, plan: &Plan, reg: &Registry) {
        let ports = own_ports(b, reg);
        let array = own_array(b);
        write_cells(b, pool, ports, array);
    }
}
