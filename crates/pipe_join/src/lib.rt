//! Joins the plug-ins of a plan and the pipeline to one module.
#![tactic(auto)]

mod commits;
mod whole;

pub use whole::join;
