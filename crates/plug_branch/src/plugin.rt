ghost use Rattle.std.specs.Prelude.{◌≡◌, [], None, IfOk};
ghost use Rattle.stage_map.specs.declared.config.PlugEntry.{PlugEntry};
ghost use Rattle.plug_kinds.specs.declared.kind.Kind.TheVariants as kind;
ghost use Rattle.plug_kinds.specs.Kinds.{fault_of, row_of, spec_of};

use crate::nets::branch_nets;
use hw_pool::Pool;
use plug_api::{ParamFault, Plan, PlugSpec, Plugin};
use plug_build::Builder;
use plug_kinds::{Kind, KindState};
use plug_kit::exec_inputs;
use service_ports::Registry;
use stage_map::PlugEntry;
use std::alloc::{AllocError, Global};

/// The unit of branches and jumps as a plug-in: JAL, JALR and the six branches (RISC-V Unprivileged 20191213, 2.5). It takes no
/// parameter. It is done in the cycle in which it is asked, and traps where a jump or a taken branch has a target that is no
/// multiple of 4.
#[derive(Debug, Drop)]
pub struct Branch {
    state: KindState,
    ghost is_branch: { state.kind ≡ kind.Branch },
}

impl Branch {
    /// The unit, which took no entry yet.
    ///
    /// # Errors
    /// `AllocError` where memory was refused.
    pub fn new(alloc: Global) -> Result<Branch, AllocError>
        ensures name { IfOk result (λ b. ⟦<Branch as Plugin>⟧.kind b ≡ (row_of kind.Branch).name) }
        ensures taken { IfOk result (λ b. ⟦<Branch as Plugin>⟧.taken b ≡ None) }
        ensures spec { IfOk result (λ b. ⟦<Branch as Plugin>⟧.spec_now b ≡ spec_of kind.Branch []) }
        ensures fault { IfOk result (λ b. (e : PlugEntry) → ⟦<Branch as Plugin>⟧.first_fault b e ≡ fault_of kind.Branch e.params) }
        ensures then { IfOk result (λ b. (e : PlugEntry) → ⟦<Branch as Plugin>⟧.spec_taken b e ≡ spec_of kind.Branch e.params) }
    {
        let state = KindState::new(alloc, Kind::Branch)?;
        Ok(Branch { state })
    }
}

impl Plugin for Branch {
    ghost use Rattle.plug_branch.specs.Builds.{BeginsBranch, BuildsBranch};
    ghost use Rattle.plug_kinds.specs.declared.kind.Kind.TheVariants as kind;
    ghost use Rattle.plug_kinds.specs.Kinds.{fault_of, params_of, row_of, spec_of};

    ghost kind = { λ s. (row_of kind.Branch).name };

    ghost taken = { λ s. s.state.taken };

    ghost spec_now = { λ s. spec_of kind.Branch (params_of s.state.taken) };

    ghost first_fault = { λ s e. fault_of kind.Branch e.params };

    ghost spec_taken = { λ s e. spec_of kind.Branch e.params };

    ghost begun = { λ s plan p. BeginsBranch p };

    ghost builds = { λ s plan p. BuildsBranch p };

    ghost begun_for = { λ s e plan p. BeginsBranch p };

    ghost builds_for = { λ s e plan p. BuildsBranch p };

    fn spec(&self) -> &PlugSpec {
        self.state.spec()
    }

    fn configure(&mut self, alloc: Global, entry: &PlugEntry) -> Result<(), ParamFault> {
        self.state.configure(alloc, entry)
    }

    fn early(&self, b: &mut Builder, pool: &mut Pool, plan: &Plan, reg: &mut Registry) {
        let wires = exec_inputs(b);
        let ports = branch_nets(b, pool, wires);
        reg.offer_exec(b.entry(), ports);
    }

    fn late(&self, b: &mut Builder, pool: &mut Pool, plan: &Plan, reg: &Registry) {}
}
