ghost use Rattle.std.specs.Prelude.{◌≡◌, ℕ, [], ◌∷◌, Bool, List};
ghost use Rattle.service_reg.specs.declared.service.Service.{Service};
ghost use Rattle.service_reg.specs.declared.service.Service.TheVariants.{Exec};
ghost use Rattle.plug_api.specs.Spec.{is_among};
ghost use Rattle.plug_part.specs.Owned.{offers};
ghost use Rattle.plug_build.specs.Done.{IsDone};
ghost use Rattle.plug_build.specs.World.{World, part_in};
ghost use Rattle.unit_steps.specs.Cycles.{Machine};
ghost use Rattle.unit_steps.specs.Signals.{KeepsWorking};
ghost use Rattle.unit_steps.specs.Parts.{BuildsWorking, WorkingPartsMeetLaws};

/// A unit that does in each cycle what a machine says, each instruction of which ends within its latency with the value that its row
/// computes, keeps the law of Exec; so it is idle again behind a clear in any cycle. This does nothing: its contract is the law.
pub fn units_at_work_keep_their_law()
    ensures law { KeepsWorking }
{}

/// Each part of such a unit meets the laws by what its plug-in says of itself. This does nothing: its contract is the law.
pub fn working_parts_meet_their_laws()
    ensures law { WorkingPartsMeetLaws }
{}

/// The entry of such a part is done once it offers Exec alone. This does nothing: its contract is the law.
pub fn working_parts_are_done()
    ensures done { (m : Machine) (widths : List ℕ) (takes : Service → Bool) (e : ℕ) (w : World) → BuildsWorking m widths (part_in takes e w)
        → ((s : Service) → offers w.reg e s ≡ is_among (Exec ∷ []) s) → IsDone e w }
{}
