ghost use Rattle.plug_csr.specs.Builds.{CsrPartsMeetLaws};

/// Each part whose trees have these values, whatever stands outside, meets the laws of a part. This does nothing: its contract is the
/// law.
pub fn csr_parts_meet_their_laws()
    ensures laws { CsrPartsMeetLaws }
{}
