//! The drivers in the netlist of a checked module have an order.
#![tactic(auto)]

mod law;

pub use law::module_netlists_are_ranked;
