//! The pipeline's own phase: its registers and forward wires, and the drivers of all that the plug-ins left.
#![tactic(auto)]

mod drive_all;
mod drivers;
mod mids;
mod nets;
mod phase;
mod places;
mod read;
mod tail;
mod unit;
mod units;
mod whole;

pub use phase::{PipeNumbers, build_pipe};
