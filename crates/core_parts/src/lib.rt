//! The parts of the plug-ins of an accepted plan are those of a core: what the theorem of joined parts asks for.
//!
//! The crate holds definitions and laws alone.
#![tactic(auto)]

mod law;

pub use law::accepted_parts_are_joined;
