//! The unit of branches and jumps: its circuit, the law of its outputs, and the plug-in that builds it (`Branch`).
//!
//! Operands are compared in two halves, and one adder makes each target. The unit looks at a few bits of the word, since the
//! word is of a row that it takes.
#![tactic(auto)]

mod circuit;
mod law;
mod nets;
mod plugin;

pub use circuit::{Flow, next_flow};
pub use law::{branch_is_right, branch_keeps_its_law, branch_parts_meet_their_laws};
pub use plugin::Branch;
