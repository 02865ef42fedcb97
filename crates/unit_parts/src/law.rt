ghost use Rattle.std.specs.Prelude.{◌≡◌, ℕ, [], ◌∷◌, Bool};
ghost use Rattle.service_reg.specs.declared.service.Service.{Service};
ghost use Rattle.service_reg.specs.declared.service.Service.TheVariants.{Exec};
ghost use Rattle.plug_api.specs.Spec.{is_among};
ghost use Rattle.plug_part.specs.Owned.{offers};
ghost use Rattle.plug_build.specs.Done.{IsDone};
ghost use Rattle.plug_build.specs.World.{World, part_in};
ghost use Rattle.unit_parts.specs.Computing.{BuildsComputing, ComputingPartsMeetLaws, ComputingUnitsBegin};
ghost use Rattle.unit_parts.specs.Says.{UnitsMeetLaws};

/// Each part of a unit that is done at once with a value and never traps, whatever stands outside, meets the laws of a part, where
/// each row that its entry takes computes that value. This does nothing: its contract is the law.
pub fn computing_parts_meet_their_laws()
    ensures law { ComputingPartsMeetLaws }
{}

/// The part of an entry that made such a unit in its first call is one of these. This does nothing: its contract is the law.
pub fn computing_units_begin()
    ensures begun { ComputingUnitsBegin }
{}

/// Each part of such a unit meets the laws by what `unit_spec` says of it, where each row that it takes computes its value. This does
/// nothing: its contract is the law.
pub fn units_meet_their_laws()
    ensures law { UnitsMeetLaws }
    ensures done { (f : (word pc a b : ℕ) → ℕ) (takes : Service → Bool) (e : ℕ) (w : World) → BuildsComputing f (part_in takes e w)
        → ((s : Service) → offers w.reg e s ≡ is_among (Exec ∷ []) s) → IsDone e w }
{}
