ghost use Rattle.plug_regfile.specs.Builds.{RegFilePartsChange, RegFilePartsMeetLaws, RegFilePartsStart};

/// Each part whose trees have these values, whatever stands outside, meets the laws of a part, and in all its runs the
/// registers begin as its array does and change by its equation. This does nothing: its contract is the laws.
pub fn regfile_parts_meet_their_laws()
    ensures laws { RegFilePartsMeetLaws }
    ensures start { RegFilePartsStart }
    ensures change { RegFilePartsChange }
{}
