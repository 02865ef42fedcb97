//! The pipeline's own registers and forward wires, and the driving of what is left for it.
#![tactic(auto)]

mod drive;
mod law;
mod make;

pub use drive::{drive_outs, drive_wires, move_regs};
pub use law::{made_things_are_found, pipelines_leave_parts};
pub use make::{Made, make_chosen, make_regs, make_tail, make_things, make_wires};
