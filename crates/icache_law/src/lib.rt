//! Cores that fetch by the plug-in `Icache`: the cache of its sizes is kept in every run of the text.
//!
//! The crate holds definitions and laws alone.
#![tactic(auto)]

mod law;

pub use law::{generated_cores_keep_icaches, icaches_keep_lines};
