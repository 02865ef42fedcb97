//! The unit of FENCE.I (RISC-V Unprivileged 20191213, chapter 3): the law of its outputs, and the plug-in that builds it (`Fencei`).
//!
//! It is done in the cycle in which it is asked, and says `fence`: the pipeline then drops what was fetched before, and Fetch
//! offers no word any more that it read before.
#![tactic(auto)]

mod law;
mod nets;
mod plugin;

pub use law::{fencei_keeps_its_law, fencei_parts_meet_their_laws};
pub use plugin::Fencei;
