ghost use Rattle.plug_fencei.specs.Builds.{FenceiPartsMeetLaws};
ghost use Rattle.plug_fencei.specs.Law.{FenceiKeepsLaw};

/// A unit whose outputs in each cycle are these functions of its inputs keeps the law of Exec, with each latency, where it takes
/// FENCE.I alone and has no bus. This does nothing: its contract is the law.
pub fn fencei_keeps_its_law()
    ensures law { FenceiKeepsLaw }
{}

/// Each part whose trees have these values, whatever stands outside, meets the laws of a part, where its entry claims FENCE.I alone
/// and does not offer DataBus. This does nothing: its contract is the law.
pub fn fencei_parts_meet_their_laws()
    ensures law { FenceiPartsMeetLaws }
{}
