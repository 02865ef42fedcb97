//! A synchronous circuit as a flat list of nodes in dependency order, and its cycle.
//!
//! A node is an operator over nodes before it, so one sweep over the list gives each node its value, with
//! no look-up by name. At the edge of the clock registers and arrays change at once, from the values
//! before it. `specs/Flat` says what a node's value is, `specs/Cycle` what a cycle does.
#![tactic(auto)]

mod build;
mod node;
mod sim;
mod sweep;

pub use build::Build;
pub use node::Node;
pub use sim::FlatSim;
pub use sweep::ArrayWrite;
