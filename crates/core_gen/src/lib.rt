//! Generates the text of a core from a configuration, by plug-ins.
#![tactic(auto)]

mod refusal;
mod writing;

pub use refusal::GenRefusal;
pub use writing::generate;
