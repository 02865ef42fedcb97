ghost use Rattle.std.specs.Prelude.{ℕ, Bool, List};
ghost use Rattle.plug_hazard.specs.Builds.{HazardPartsBypass, HazardPartsMeetLaws};
ghost use Rattle.plug_hazard.specs.Law.{AreBits, Chooses, HazardKeepsLaw};
ghost use Rattle.plug_hazard.specs.Machine.{Told};

/// Over stages of any number and any set of bypassed ones, the operand is that of the youngest writer, and it is missing exactly
/// where that one's result is not there or not used. This does nothing: its contract is the law.
pub fn operands_are_right()
    ensures chosen { (bypassed : ℕ → Bool) (stages : List Told) (r plain : ℕ) → AreBits stages → Chooses bypassed stages r plain }
{}

/// A part whose outputs in each cycle are the equations keeps the law of Hazard, for each set of bypassed stages. This does
/// nothing: its contract is the law.
pub fn hazard_keeps_its_law()
    ensures law { HazardKeepsLaw }
{}

/// Each part whose trees have these values, whatever stands outside, meets the laws of a part, and these stages are its bypassed
/// ones in all its runs. This does nothing: its contract is the laws.
pub fn hazard_parts_meet_their_laws()
    ensures laws { HazardPartsMeetLaws }
    ensures bypassed { HazardPartsBypass }
{}
