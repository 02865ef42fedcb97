ghost use Rattle.std.specs.Prelude.{◌≡◌, pos, None, Some, IfErr, IfOk, IsOk, OnErr, OnOk};
ghost use Rattle.plug_api.specs.Spec.{IsSound, IsSpec};
ghost use Rattle.stage_map.specs.declared.config.PlugEntry.{PlugEntry};
ghost use Rattle.stage_map.specs.declared.config.ParamValue.TheVariants.{Num};
ghost use Rattle.plug_kinds.specs.Kinds.{fault_of, flag_of, given_or, number_of, params_of, spec_of};

use crate::Kind;
use crate::given::flag_in;
use crate::latency::{latency_of, number_in};
use crate::params::check_params;
use crate::spec::spec_of;
use plug_api::{ParamFault, PlugSpec};
use stage_map::{ParamValue, PlugEntry};
use std::alloc::{AllocError, Global};
use std::marker::Model;

/// What a plug-in of a kind keeps: the entry that it took last, and what it says of itself then.
#[derive(Debug, Drop)]
pub struct KindState {
    kind: Kind,
    spec: PlugSpec,
    taken: Option<PlugEntry>,
}

impl Model for KindState {
    ghost use Rattle.std.specs.Prelude.{◌≡◌};
    ghost use Rattle.plug_kinds.specs.Kinds.{KindValue, params_of, spec_of};

    ghost Value = { KindValue };

    ghost view = { λ s. record { kind = s.kind; taken = s.taken } };

    ghost invariant = { λ s. s.spec ≡ spec_of s.kind (params_of s.taken) };
}

impl KindState {
    /// The state of a plug-in of this kind, which took no entry yet.
    ///
    /// # Errors
    /// `AllocError` where memory was refused.
    pub fn new(alloc: Global, kind: Kind) -> Result<KindState, AllocError>
        ensures { IfOk result (λ s. s ≡ record { kind = kind; taken = None }) }
    {
        Ok(KindState {
            kind,
            spec: spec_of(alloc, kind, &[])?,
            taken: None,
        })
    }

    /// What the plug-in says of itself, lent. It takes no memory.
    #[tactic(auto, using(crate::proofs::Fits::said))]
    pub fn spec(&self) -> &PlugSpec
        ensures now { result.now ≡ spec_of self.now.kind (params_of self.now.taken) }
        ensures is_spec { IsSpec (spec_of self.now.kind (params_of self.now.taken)) }
        ensures sound { IsSound (λ (e : PlugEntry). fault_of self.now.kind e.params) (λ (e : PlugEntry). spec_of self.now.kind e.params) }
    {
        &self.spec
    }

    /// Takes the parameters of an entry, or refuses their first fault and stays as it was.
    ///
    /// # Errors
    /// The first fault of the entry; `NoMemory` where memory was refused.
    pub fn configure(&mut self, alloc: Global, entry: &PlugEntry) -> Result<(), ParamFault>
        ensures kind { self.new.kind ≡ self.old.kind }
        ensures ok { IsOk result → fault_of self.old.kind entry.now.params ≡ None }
        ensures fault { IfErr result (λ f. (f ≡ ParamFault.NoMemory → ⊥) → fault_of self.old.kind entry.now.params ≡ Some f) }
        ensures took { OnOk result (self.new.taken ≡ Some entry.now) }
        ensures not_taken { OnErr result (self.new.taken ≡ self.old.taken) }
    {
        let params = entry.params.items().as_slice();
        check_params(alloc, self.kind, params)?;
        match entry.copy(alloc) {
            Ok(copy) => {
                self.spec.latency = latency_of(self.kind, params);
                self.taken = Some(copy);
                Ok(())
            }
            Err(_) => Err(ParamFault::NoMemory),
        }
    }

    /// The truth value of a parameter in the entry taken; the default where no entry was taken or it gives none.
    pub fn flag(&self, key: &'static str, default: bool) -> bool
        ensures { result ≡ flag_of (given_or (ParamValue.Flag default) (params_of self.now.taken) key.now) }
    {
        match &self.taken {
            Some(entry) => flag_in(entry.params.items().as_slice(), key, default),
            None => default,
        }
    }

    /// The number that the entry taken gives for a key, or else the default; 0 where it gives no number.
    pub fn number(&self, key: &'static str, default: u32) -> u64
        ensures { result ≡ number_of (given_or (Num (pos default)) (params_of self.now.taken) key.now) }
    {
        match &self.taken {
            Some(entry) => number_in(entry.params.items().as_slice(), key, default),
            None => u64::from(default),
        }
    }
}
