//! Words that a core must fetch: where memory gave one word at the pc in each state since the last retired FENCE.I, no other is
//! executed. The crate holds definitions and a law alone, on runs of the machine.
#![tactic(auto)]

ghost use Rattle.fresh_law.specs.Fresh.{FreshEvents, FreshWords};

/// The law of fresh words. A step of a run of the machine that is no interrupt retires or traps with the word that memory gave at
/// its pc, where it gave this one word in the state of the step and in each state before it back to the last retired FENCE.I, or to
/// the start where there is none. So the ports of a core whose run follows the machine show this word. This does nothing: its
/// contract is the law.
pub fn fresh_words()
    ensures words { FreshWords }
    ensures shown { FreshEvents }
{}
