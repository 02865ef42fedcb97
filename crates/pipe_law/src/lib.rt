//! Parts that keep their laws, joined by the pipeline step, follow the machine, whatever plug-ins they are.
//!
//! The crate holds one theorem and its proof. It speaks of signals by cycle alone, of no net and no text, so it is proved once
//! for all cores.
#![tactic(auto)]

ghost use Rattle.pipe_law.specs.Claims.{PipeFollows};

/// The theorem. In the first `n` cycles of each run of a core whose parts keep their laws, over any memory and on buses that are
/// honest so far, the events on the ports are those of a run of the RISC-V machine, with its memory and its writes, and the
/// core keeps its duties on both buses. Of the same run: the units' work serves the events, each once; where each bus
/// answers within `w` cycles a row of cycles without an event, but for those in which a WFI waits or the machine is stopped,
/// is shorter than `2 F + 3 X + 20`, with `F` and `X` the latencies of Fetch and of the slowest unit at `w`; and where all
/// stages are bypassed, `k` cycles of quick and well predicted instructions have at least `k - 5` events. This does
/// nothing: its contract is the law.
pub fn pipe_follows()
    ensures follows { PipeFollows }
{}
