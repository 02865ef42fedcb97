ghost use Rattle.plug_dbus.specs.Builds.{DbusPartsMeetLaws, DbusPartsReadOnce};

/// Each part whose trees have these values, whatever stands outside, meets the laws of a part, and in all its runs a load reads its
/// word exactly once. This does nothing: its contract is the laws.
pub fn dbus_parts_meet_their_laws()
    ensures laws { DbusPartsMeetLaws }
    ensures reads { DbusPartsReadOnce }
{}
