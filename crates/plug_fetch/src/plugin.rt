ghost use Rattle.std.specs.Prelude.{◌≡◌, ◌≤◌, [], None, IfOk};
ghost use Rattle.stage_map.specs.declared.config.PlugEntry.{PlugEntry};
ghost use Rattle.plug_kinds.specs.declared.kind.Kind.TheVariants as kind;
ghost use Rattle.plug_kinds.specs.Kinds.{fault_of, params_of, row_of, spec_of};
ghost use Rattle.plug_fetch.specs.Begun.{depth_of};

use crate::command::drive_regs;
use crate::cycle::read_cycle;
use crate::find::own_ports;
use crate::late::give_command;
use crate::offer::{fetch_nets, make_regs};
use crate::predict::ask_predict;
use hw_pool::Pool;
use plug_api::{ParamFault, Plan, PlugSpec, Plugin};
use plug_build::Builder;
use plug_kinds::{Kind, KindState};
use plug_kit::{fetch_inputs, own_reg};
use service_ports::Registry;
use stage_map::PlugEntry;
use std::alloc::{AllocError, Global};

/// The fetch unit as a plug-in: it reads instructions ahead, and gives them in the order of the program. Its parameter `depth`
/// from 1 to 4, 1 where none is given, is how many it may hold.
#[derive(Debug, Drop)]
pub struct Fetch {
    state: KindState,
    ghost is_fetch: { state.kind ≡ kind.Fetch },
    ghost faultless: { fault_of kind.Fetch (params_of state.taken) ≡ None },
}

impl Fetch {
    /// The unit, which took no entry yet.
    ///
    /// # Errors
    /// `AllocError` where memory was refused.
    pub fn new(alloc: Global) -> Result<Fetch, AllocError>
        ensures name { IfOk result (λ b. ⟦<Fetch as Plugin>⟧.kind b ≡ (row_of kind.Fetch).name) }
        ensures taken { IfOk result (λ b. ⟦<Fetch as Plugin>⟧.taken b ≡ None) }
        ensures spec { IfOk result (λ b. ⟦<Fetch as Plugin>⟧.spec_now b ≡ spec_of kind.Fetch []) }
        ensures fault { IfOk result (λ b. (e : PlugEntry) → ⟦<Fetch as Plugin>⟧.first_fault b e ≡ fault_of kind.Fetch e.params) }
        ensures then { IfOk result (λ b. (e : PlugEntry) → ⟦<Fetch as Plugin>⟧.spec_taken b e ≡ spec_of kind.Fetch e.params) }
    {
        let state = KindState::new(alloc, Kind::Fetch)?;
        Ok(Fetch { state })
    }

    /// How many items it may hold: 1 to 4.
    #[tactic(auto, using(plug_kinds::proofs::Bounds::depth_least, plug_kinds::proofs::Bounds::depth_most))]
    fn depth(&self) -> u32
        ensures is { result ≡ depth_of (params_of self.now.state.taken) }
        ensures least { 1 ≤ result }
        ensures most { result ≤ 4 }
    {
        self.state.number("depth", 1) as u32
    }
}

impl Plugin for Fetch {
    ghost use Rattle.plug_fetch.specs.Begun.{BeginsFetch, depth_of};
    ghost use Rattle.plug_fetch.specs.Builds.{BuildsFetch};
    ghost use Rattle.plug_kinds.specs.declared.kind.Kind.TheVariants as kind;
    ghost use Rattle.plug_kinds.specs.Kinds.{fault_of, params_of, row_of, spec_of};

    ghost kind = { λ s. (row_of kind.Fetch).name };

    ghost taken = { λ s. s.state.taken };

    ghost spec_now = { λ s. spec_of kind.Fetch (params_of s.state.taken) };

    ghost first_fault = { λ s e. fault_of kind.Fetch e.params };

    ghost spec_taken = { λ s e. spec_of kind.Fetch e.params };

    ghost begun = { λ s plan p. BeginsFetch (depth_of (params_of s.state.taken)) plan.shape.reset_pc p };

    ghost builds = { λ s plan p. BuildsFetch (depth_of (params_of s.state.taken)) plan.shape.reset_pc p };

    ghost begun_for = { λ s e plan p. BeginsFetch (depth_of e.params) plan.shape.reset_pc p };

    ghost builds_for = { λ s e plan p. BuildsFetch (depth_of e.params) plan.shape.reset_pc p };

    fn spec(&self) -> &PlugSpec {
        self.state.spec()
    }

    fn configure(&mut self, alloc: Global, entry: &PlugEntry) -> Result<(), ParamFault> {
        self.state.configure(alloc, entry)
    }

    fn early(&self, b: &mut Builder, pool: &mut Pool, plan: &Plan, reg: &mut Registry) {
        let depth = self.depth();
        let wires = fetch_inputs(b);
        let first = make_regs(b, depth, plan.shape.reset_pc);
        let ports = fetch_nets(b, pool, wires, first);
        reg.offer_fetch(b.entry(), ports);
    }

    fn late(&self, b: &mut Builder, pool: &mut Pool, plan: &Plan, reg: &Registry) {
        let depth = self.depth();
        let ports = own_ports(b, reg);
        let first = own_reg(b);
        let _rows = b.regs();
        let c = read_cycle(b, pool, reg, ports, first + 4 * depth);
        drive_regs(b, pool, first, depth, c);
        ask_predict(b, pool, reg, c.address, c.payload);
        give_command(b, pool, c.given, c.address);
    }
}
