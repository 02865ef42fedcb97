//! The cycle of a module, as a simulator runs it.
//!
//! The simulator is a flat circuit. `specs/Simulates` says when a circuit is a module's: whatever the
//! registers and arrays hold, the outputs of a step and what is held after it are those of the module's
//! cycle. `TreeSim::new` makes the circuit of each tree that the checker took, `TreeSim::step` runs it.
#![tactic(auto)]

mod arrays;
mod bind;
mod bound;
mod build;
mod count;
mod drivers;
mod held;
mod nexts;
mod outs;
mod puts;
mod stmts;
mod tree_sim;

pub use arrays::ArrayPlace;
pub use tree_sim::TreeSim;
