//! The netlist of a checked module is sound.
#![tactic(auto)]

mod law;

pub use law::module_netlists_are_sound;
