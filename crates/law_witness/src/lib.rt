//! Cores as state machines over numbers, which meet the premises of the theorem of the pipeline: so none of them is empty.
#![tactic(auto)]

ghost use Rattle.law_witness.specs.Met.{World, Met};
ghost use Rattle.std.specs.Prelude.{true, false};
ghost use Rattle.law_witness.specs.Cores.{all_rows, small_rows};
ghost use Rattle.law_witness.specs.Program.{RunsProgram};
ghost use Rattle.law_witness.specs.Stream.{MeetsStream};

/// A core of the rows that need neither CSRs nor the data bus, without System and data bus, of 2 stages, meets every premise in
/// each world: any memory of a system, any start, any interrupt lines, which it does not see. This does nothing: its
/// contract is the law.
pub fn small_core_is_met()
    ensures met { (o : World) → Met small_rows false 2 o }
{}

/// A core of all rows, with System and the data bus, 4 stages and full bypass, which fetches by a real instruction bus along
/// Predict, meets every premise in each world: any memory of a system, any start, any interrupt lines. This does nothing:
/// its contract is the law.
pub fn whole_core_is_met()
    ensures met { (o : World) → Met all_rows true 4 o }
{}

/// That core runs a program: in a world whose memory holds a store, a load, a FENCE.I, accesses of CSRs, a WFI, an interrupt's
/// handler and an MRET, it shows exactly the events that are listed. This does nothing: its contract is the law.
pub fn whole_core_runs_a_program()
    ensures program { RunsProgram }
{}

/// That core meets the premises of the claim on overlap: in a world whose memory holds twelve instructions without effect, eight of
/// its cycles are a stream. This does nothing: its contract is the law.
pub fn whole_core_has_a_stream()
    ensures stream { MeetsStream }
{}
