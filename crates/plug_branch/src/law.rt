ghost use Rattle.std.specs.Prelude.{ℕ, ◌<◌, ◌^◌};
ghost use Rattle.plug_branch.specs.Builds.{BranchPartsMeetLaws};
ghost use Rattle.plug_branch.specs.Law.{BranchKeepsLaw, IsRight};

/// For each row of the unit, the circuit shows the row's effect at each word of it, also where that is a trap. This does nothing: its
/// contract is the law.
pub fn branch_is_right()
    ensures effect { (word pc a b : ℕ) → a < 2 ^ 32 → b < 2 ^ 32 → IsRight word pc a b }
{}

/// A unit whose outputs in each cycle are these functions of its inputs keeps the law of Exec, with each latency, where it takes
/// rows of these alone and has no bus. This does nothing: its contract is the law.
pub fn branch_keeps_its_law()
    ensures law { BranchKeepsLaw }
{}

/// Each part whose trees have these values, whatever stands outside, meets the laws of a part, where its entry claims rows of the
/// unit alone and does not offer DataBus. This does nothing: its contract is the law.
pub fn branch_parts_meet_their_laws()
    ensures law { BranchPartsMeetLaws }
{}
