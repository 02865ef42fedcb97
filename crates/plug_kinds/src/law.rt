ghost use Rattle.std.specs.Prelude.{◌≡◌, ◌≤◌, List, None, codes};
ghost use Rattle.stage_map.specs.declared.config.Param.{Param};
ghost use Rattle.plug_api.specs.Spec.{IsSpec};
ghost use Rattle.plug_kinds.specs.Kinds.{fault_of, number_of, spec_of, value_of};
ghost use Rattle.plug_kinds.specs.declared.kind.Kind.{Kind};

/// What a kind says of itself, whatever parameters it took, a plug-in may say. This does nothing: its contract is the
/// law.
pub fn kinds_fit()
    ensures { (kind : Kind) (params : List Param) → IsSpec (spec_of kind params) }
{}

/// The depth of Fetch is from 1 to 4 where no parameter has a fault. This does nothing: its contract is the law.
pub fn depths_are_bounded()
    ensures least { (params : List Param) → fault_of Kind.Fetch params ≡ None → 1 ≤ number_of (value_of Kind.Fetch params (codes "depth")) }
    ensures most { (params : List Param) → fault_of Kind.Fetch params ≡ None → number_of (value_of Kind.Fetch params (codes "depth")) ≤ 4 }
{}
