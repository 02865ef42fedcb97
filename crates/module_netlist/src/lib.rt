//! The netlist of a module of nodes: the names of its things, its lines, and what it means that a text is a
//! module's.
#![tactic(auto)]

mod law;

pub use law::{names_differ, netlists_are_writable};
