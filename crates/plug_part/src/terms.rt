ghost use Rattle.plug_part.specs.Terms.{OwnersAreTold};

/// Where no row is claimed twice, the owner of a claim's row is the owner at its place. This does nothing: its contract is the
/// law.
pub fn owners_are_told()
    ensures told { OwnersAreTold }
{}
