//! Lets the plug-ins of a plan build, one behind the other: `early` of all in the plan's order, then `late` of all.
#![tactic(auto)]

mod boxes;
mod early;
mod late;
mod law;

pub use boxes::{JoinRefusal, Joined, build_boxes};
pub use law::{accepted_plans_build, joined_parts_stay};
