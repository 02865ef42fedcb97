//! The part that bypasses results and holds items: its circuit over three stages, the law of its values, and the plug-in that
//! builds it (`Hazard`).
//!
//! Which stages are bypassed is one truth value for each stage.
#![tactic(auto)]

mod circuit;
mod find;
mod law;
mod nets;
mod plugin;

pub use circuit::{Operand, Stage, choose_operand, hold};
pub use law::{hazard_keeps_its_law, hazard_parts_meet_their_laws, operands_are_right};
pub use plugin::Hazard;
