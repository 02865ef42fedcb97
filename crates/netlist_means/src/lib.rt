//! The netlist of a checked module means the module, name by name.
#![tactic(auto)]

mod law;

pub use law::{module_netlists_have_core_ports, module_netlists_mean};
