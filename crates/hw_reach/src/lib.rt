//! What a module reaches, and how its forward wires take their values.
//!
//! A module reaches its drivers and all that they are made of. Each reached node is live, and its tree fits the
//! module. A forward wire has its driver's value in each cycle, and no other values of the forward wires agree
//! with all drivers. Contents and values stay within their widths.
#![tactic(auto)]

mod law;
mod marks;
mod walk;

pub use law::{reached_fits, runs_keep_widths, wire_solves, wires_are_one};
pub use walk::reach;
