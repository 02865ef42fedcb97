//! Laws that units share: what a unit has to show, so that it keeps the law of Exec.
#![tactic(auto)]

ghost use Rattle.unit_law.specs.AtOnce.{KeepsAtOnce};
ghost use Rattle.unit_law.specs.Computing.{KeepsComputing};

/// A unit that is done in the cycle in which it is given an instruction, shows the instruction's effect and has no bus keeps
/// the law of Exec, with each latency. This does nothing: its contract is the law.
pub fn units_at_once_keep_their_law()
    ensures law { KeepsAtOnce }
{}

/// A unit that is done in that cycle with the value that each row that it takes computes, and that never traps, keeps the law of
/// Exec, with each latency. This does nothing: its contract is the law.
pub fn computing_units_keep_their_law()
    ensures law { KeepsComputing }
{}
