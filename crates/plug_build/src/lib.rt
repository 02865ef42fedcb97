//! The builder of a module for one entry at a time, what an entry may change, and what becomes of the parts of others.
//!
//! An entry builds in two calls: in `early` it makes things and offers its services, in `late` it drives what it made. In
//! each it acts within its rights (`specs/World`), so that the parts of all others stay the same. What a module holds and
//! gives in each cycle is a run of each entry's part.
#![tactic(auto)]

mod builder;
mod drive;
mod law;
mod read;

pub use builder::Builder;
pub use law::{parts_run, parts_stay, worlds_stay_fit};
