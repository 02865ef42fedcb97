//! The text of a module of joined parts refines the machine.
//!
//! The crate holds definitions and laws alone, and names no kind of plug-in.
#![tactic(auto)]

ghost use Rattle.core_refine.specs.Piped.{PipedRefines};

/// The theorem of joined cores: where a module is one of parts that are joined, and its runs take the steps of the pipeline, each
/// text that means it refines the machine of the core's instructions from the core's reset pc. What Predict answers and the stages
/// that Hazard uses are chosen before start contents, inputs and memory; on each run that follows the machine the parts serve
/// its events, no gap is long, and instructions overlap. This does nothing: its contract is the law.
pub fn joined_refines()
    ensures refines { PipedRefines }
{}
