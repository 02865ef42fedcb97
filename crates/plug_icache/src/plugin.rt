ghost use Rattle.std.specs.Prelude.{◌≡◌, ◌≤◌, [], None, IfOk};
ghost use Rattle.stage_map.specs.declared.config.PlugEntry.{PlugEntry};
ghost use Rattle.plug_kinds.specs.declared.kind.Kind.TheVariants as kind;
ghost use Rattle.plug_kinds.specs.Kinds.{fault_of, params_of, row_of, spec_of};
ghost use Rattle.plug_icache.specs.Sizes.{lines_of, log_of, words_of};

use crate::drive::{drive_arrays, drive_regs};
use crate::find::own_ports;
use crate::late::give_command;
use crate::logs::log_of;
use crate::make::{make_arrays, make_regs};
use crate::offer::fetch_nets;
use crate::predict::ask_predict;
use crate::whole::read_cycle;
use cache_nets::{Sizes, cycle_nets};
use hw_pool::Pool;
use plug_api::{ParamFault, Plan, PlugSpec, Plugin};
use plug_build::Builder;
use plug_kinds::{Kind, KindState};
use plug_kit::{fetch_inputs, own_array, own_reg};
use service_ports::Registry;
use stage_map::PlugEntry;
use std::alloc::{AllocError, Global};

/// The fetch unit with an instruction cache as a plug-in: it keeps lines that it has read, and gives instructions in the order of
/// the program. Its parameters are powers of two: `lines` from 2 to 1024, 64 where none is given, and `words` in a line, from 2 to 16, 8
/// where none is given.
#[derive(Debug, Drop)]
pub struct Icache {
    state: KindState,
    ghost is_icache: { state.kind ≡ kind.Icache },
    ghost faultless: { fault_of kind.Icache (params_of state.taken) ≡ None },
}

impl Icache {
    /// The unit, which took no entry yet.
    ///
    /// # Errors
    /// `AllocError` where memory was refused.
    pub fn new(alloc: Global) -> Result<Icache, AllocError>
        ensures name { IfOk result (λ b. ⟦<Icache as Plugin>⟧.kind b ≡ (row_of kind.Icache).name) }
        ensures taken { IfOk result (λ b. ⟦<Icache as Plugin>⟧.taken b ≡ None) }
        ensures spec { IfOk result (λ b. ⟦<Icache as Plugin>⟧.spec_now b ≡ spec_of kind.Icache []) }
        ensures fault { IfOk result (λ b. (e : PlugEntry) → ⟦<Icache as Plugin>⟧.first_fault b e ≡ fault_of kind.Icache e.params) }
        ensures then { IfOk result (λ b. (e : PlugEntry) → ⟦<Icache as Plugin>⟧.spec_taken b e ≡ spec_of kind.Icache e.params) }
    {
        let state = KindState::new(alloc, Kind::Icache)?;
        Ok(Icache { state })
    }

    /// The bits of an index and of a place within a line.
    #[tactic(auto, using(crate::proofs::Powers::place_most))]
    fn sizes(&self) -> Sizes
        ensures index { result.index ≡ log_of (lines_of (params_of self.now.state.taken)) }
        ensures place { result.place ≡ log_of (words_of (params_of self.now.state.taken)) }
        ensures some_lines { 1 ≤ result.index }
        ensures few_lines { result.index ≤ 10 }
        ensures some_words { 1 ≤ result.place }
        ensures few_words { result.place ≤ 4 }
    {
        let index = log_of(self.state.number("lines", 64));
        let place = log_of(self.state.number("words", 8));
        Sizes { index, place }
    }
}

impl Plugin for Icache {
    ghost use Rattle.plug_icache.specs.Begun.{BeginsIcache};
    ghost use Rattle.plug_icache.specs.Builds.{BuildsIcache};
    ghost use Rattle.plug_icache.specs.Sizes.{lines_of, log_of, words_of};
    ghost use Rattle.plug_kinds.specs.declared.kind.Kind.TheVariants as kind;
    ghost use Rattle.plug_kinds.specs.Kinds.{fault_of, params_of, row_of, spec_of};

    ghost kind = { λ s. (row_of kind.Icache).name };

    ghost taken = { λ s. s.state.taken };

    ghost spec_now = { λ s. spec_of kind.Icache (params_of s.state.taken) };

    ghost first_fault = { λ s e. fault_of kind.Icache e.params };

    ghost spec_taken = { λ s e. spec_of kind.Icache e.params };

    ghost begun = { λ s plan p. BeginsIcache (log_of (lines_of (params_of s.state.taken))) (log_of (words_of (params_of s.state.taken))) plan.shape.reset_pc p };

    ghost builds = { λ s plan p. BuildsIcache (log_of (lines_of (params_of s.state.taken))) (log_of (words_of (params_of s.state.taken))) plan.shape.reset_pc p };

    ghost begun_for = { λ s e plan p. BeginsIcache (log_of (lines_of e.params)) (log_of (words_of e.params)) plan.shape.reset_pc p };

    ghost builds_for = { λ s e plan p. BuildsIcache (log_of (lines_of e.params)) (log_of (words_of e.params)) plan.shape.reset_pc p };

    fn spec(&self) -> &PlugSpec {
        self.state.spec()
    }

    fn configure(&mut self, alloc: Global, entry: &PlugEntry) -> Result<(), ParamFault> {
        self.state.configure(alloc, entry)
    }

    fn early(&self, b: &mut Builder, pool: &mut Pool, plan: &Plan, reg: &mut Registry) {
        let z = self.sizes();
        let wires = fetch_inputs(b);
        let first = make_regs(b, z, plan.shape.reset_pc);
        let _tags = make_arrays(b, z);
        let _rows = b.regs();
        let ports = fetch_nets(b, pool, wires, first + 12);
        reg.offer_fetch(b.entry(), ports);
    }

    fn late(&self, b: &mut Builder, pool: &mut Pool, plan: &Plan, reg: &Registry) {
        let z = self.sizes();
        let ports = own_ports(b, reg);
        let first = own_reg(b);
        let tags = own_array(b);
        let _rows = b.regs();
        let _arrays = b.arrays();
        let c = read_cycle(b, pool, reg, ports, z, first, tags);
        let n = cycle_nets(pool, z, c);
        drive_regs(b, pool, z, first, n);
        drive_arrays(b, pool, z, tags, n);
        ask_predict(b, pool, reg, c.held.pc, n.word);
        give_command(b, pool, c.held.given, n.address);
    }
}
