//! What a plug-in is and builds, and which configurations of plug-ins are accepted.
#![tactic(auto)]

mod acceptance;
mod checks;
mod claims;
mod configure;
mod copies;
mod law;
mod lawful;
mod picks;
mod plugin;
mod refusal;
mod spec;

pub use acceptance::{Checked, accept, check_specs};
pub use claims::OwnedClaim;
pub use law::{accepted_or_refused, decides_each, one_first_refusal, refusals_exclude};
pub use lawful::plans_are_lawful;
pub use plugin::Plugin;
pub use refusal::RuleRefusal;
pub use spec::{Cost, ParamFault, Place, Plan, PlugSpec};
