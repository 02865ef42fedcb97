//! The services that plug-ins offer, need and use, and the order in which they are built.
#![tactic(auto)]

mod build;
mod law;
mod offer;
mod service;
mod stand;

pub use build::order;
pub use law::{faults_exclude, one_first_fault};
pub use service::{Service, ServiceRefusal, ServiceUse};
