//! The part that fetches instructions: a queue of 1 to 4 places, and one command on the instruction bus at a time.
//!
//! The part is equations over numbers (`specs/Machine`), and the law says what they keep. The circuit (`circuit`) has these
//! values, and each register is driven by its equation (`places`, `command`; `specs/Registers`). The plug-in (`Fetch`) makes the
//! registers in its first call; in its second it drives them, the command on the instruction bus, and the inputs of Predict.
#![tactic(auto)]

mod circuit;
mod command;
mod cycle;
mod drive;
mod find;
mod late;
mod make;
mod offer;
mod places;
mod plugin;
mod predict;
mod read;

ghost use Rattle.std.specs.Prelude.{◌≡◌, ℕ, ◌≤◌, ◌%◌, Bool};
ghost use Rattle.core_ports.specs.Trace.{Bus};
ghost use Rattle.bus_law.specs.Memory.{Memory};
ghost use Rattle.plug_law.specs.Fetch.{FetchSignals, FetchLaw};
ghost use Rattle.plug_law.specs.Depth.{DepthLaw};
ghost use Rattle.plug_law.specs.Predict.{IsPredict};
ghost use Rattle.plug_fetch.specs.Builds.{FetchPartsMeetLaws, FetchPartsReadAhead};
ghost use Rattle.plug_fetch.specs.Machine.{Now};
ghost use Rattle.plug_fetch.specs.Runs.{HasRuns, IsFetch, Shows};

pub use plugin::Fetch;

/// In each run of the equations, over any memory, the part keeps the law of Fetch with a latency of 8 + 4 w cycles on a bus that
/// answers within w, and the law of its depth, with Predict and without, for each depth of at least 1. This does nothing:
/// its contract is the laws.
pub fn fetch_keeps_its_laws()
    ensures law { (depth reset_pc : ℕ) (predicts : Bool) (predict : ℕ → ℕ → ℕ) (q : ℕ → Now) (f : FetchSignals) (ib : Bus) (mem : ℕ → Memory)
        → 1 ≤ depth → reset_pc % 4 ≡ 0 → IsPredict predicts predict → IsFetch depth reset_pc q → Shows predicts q f ib
        → FetchLaw (8, 4) predicts predict reset_pc f ib mem }
    ensures depth { (depth reset_pc : ℕ) (predicts : Bool) (predict : ℕ → ℕ → ℕ) (q : ℕ → Now) (f : FetchSignals) (ib : Bus) (mem : ℕ → Memory)
        → 1 ≤ depth → reset_pc % 4 ≡ 0 → IsPredict predicts predict → IsFetch depth reset_pc q → Shows predicts q f ib
        → DepthLaw depth predicts predict f ib mem }
{}

/// Whatever bits, pcs and words come in each cycle, the equations have a run in which they come: the laws are not empty. This does
/// nothing: its contract is the law.
pub fn fetch_has_runs()
    ensures runs { HasRuns }
{}

/// Each part whose trees have the equations, whatever stands outside, meets the laws of a part with a latency of 8 + 4 w cycles, and
/// keeps the law of its depth in all its runs. This does nothing: its contract is the laws.
pub fn fetch_parts_meet_their_laws()
    ensures laws { FetchPartsMeetLaws }
    ensures depth { FetchPartsReadAhead }
{}
