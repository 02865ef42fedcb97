ghost use Rattle.std.specs.Prelude.{◌≡◌, [], None, Some, IfErr, IsOk, OnErr, OnOk};
ghost use Rattle.stage_map.specs.declared.config.PlugEntry.{PlugEntry};
ghost use Rattle.plug_api.specs.Spec.{IsSound, IsSpec};
ghost use Rattle.plug_kinds.specs.Kinds.{fault_in};

use crate::params::unknown;
use plug_api::{ParamFault, PlugSpec};
use stage_map::PlugEntry;
use std::alloc::Global;
use std::marker::Model;

/// What a plug-in keeps that takes no parameter: what it says of itself, and the entry that it took last.
#[derive(Debug, Drop)]
pub struct PlainState {
    spec: PlugSpec,
    taken: Option<PlugEntry>,
}

impl Model for PlainState {
    ghost use Rattle.plug_api.specs.Spec.{IsSpec};
    ghost use Rattle.plug_kinds.specs.Kinds.{PlainValue};

    ghost Value = { PlainValue };

    ghost view = { λ s. record { spec = s.spec; taken = s.taken } };

    ghost invariant = { λ s. IsSpec s.spec };
}

impl PlainState {
    /// The state of a plug-in that says this, and took no entry yet. It takes no memory.
    pub fn new(spec: PlugSpec) -> PlainState
        requires { IsSpec spec }
        ensures { result ≡ record { spec = spec; taken = None } }
    {
        PlainState { spec, taken: None }
    }

    /// What the plug-in says of itself, lent. It takes no memory.
    pub fn spec(&self) -> &PlugSpec
        ensures now { result.now ≡ self.now.spec }
        ensures is_spec { IsSpec self.now.spec }
        ensures sound { IsSound (λ (e : PlugEntry). fault_in [] e.params) (λ (e : PlugEntry). self.now.spec) }
    {
        &self.spec
    }

    /// Takes an entry, or refuses its first parameter and stays as it was.
    ///
    /// # Errors
    /// `Unknown` with the first parameter's key; `NoMemory` where memory was refused.
    pub fn configure(&mut self, alloc: Global, entry: &PlugEntry) -> Result<(), ParamFault>
        ensures spec { self.new.spec ≡ self.old.spec }
        ensures ok { IsOk result → fault_in [] entry.now.params ≡ None }
        ensures fault { IfErr result (λ f. (f ≡ ParamFault.NoMemory → ⊥) → fault_in [] entry.now.params ≡ Some f) }
        ensures took { OnOk result (self.new.taken ≡ Some entry.now) }
        ensures not_taken { OnErr result (self.new.taken ≡ self.old.taken) }
    {
        if let Some(param) = entry.params.items().first() {
            return Err(unknown(alloc, &param.key));
        }
        match entry.copy(alloc) {
            Ok(copy) => {
                self.taken = Some(copy);
                Ok(())
            }
            Err(_) => Err(ParamFault::NoMemory),
        }
    }
}
