ghost use Rattle.std.specs.Prelude.{ℕ, ◌<◌, ◌^◌};
ghost use Rattle.plug_alu.specs.Builds.{AluPartsMeetLaws};
ghost use Rattle.plug_alu.specs.Law.{AluKeepsLaw, IsRight};

/// For each row of the unit, the circuit's value is the row's at each word of it. This does nothing: its contract is
/// the law.
pub fn alu_is_right()
    ensures value { (word pc a b : ℕ) → a < 2 ^ 32 → b < 2 ^ 32 → IsRight word pc a b }
{}

/// A unit whose outputs in each cycle are these functions of its inputs keeps the law of Exec, with each latency, where it takes
/// rows of these alone and has no bus. This does nothing: its contract is the law.
pub fn alu_keeps_its_law()
    ensures law { AluKeepsLaw }
{}

/// Each part whose trees have these values, whatever stands outside, meets the laws of a part, where its entry claims rows of the
/// unit alone and does not offer DataBus. This does nothing: its contract is the law.
pub fn alu_parts_meet_their_laws()
    ensures law { AluPartsMeetLaws }
{}
