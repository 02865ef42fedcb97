ghost use Rattle.plug_muldiv.specs.Builds.{MuldivPartsMeetLaws};
ghost use Rattle.plug_muldiv.specs.Machine.{MuldivIsRight};

/// Each instruction of the eight rows ends within 32 / unroll + 4 cycles with its row's value, for each number of steps in a cycle
/// that divides 32, all operands, and whatever the registers held before. This does nothing: its contract is the law.
pub fn muldiv_is_right()
    ensures law { MuldivIsRight }
{}

/// Each part of such a unit meets the laws by what its plug-in says of itself. This does nothing: its contract is the law.
pub fn muldiv_parts_meet_their_laws()
    ensures law { MuldivPartsMeetLaws }
{}
