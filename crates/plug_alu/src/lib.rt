//! The unit of the integer computations: its circuit, the law of its values, and the plug-in that builds it (`Alu`).
//!
//! One adder serves sums, differences and both comparisons. The unit looks at a few bits of the word, since the word is of a
//! row that it takes.
#![tactic(auto)]

mod circuit;
mod law;
mod nets;
mod plugin;

pub use circuit::alu;
pub use law::{alu_is_right, alu_keeps_its_law, alu_parts_meet_their_laws};
pub use plugin::Alu;
