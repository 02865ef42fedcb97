//! The circuit of a unit for multiplication and division that makes `unroll` steps in a cycle: when an instruction ends, and what its
//! registers hold behind a cycle.
//!
//! Each function has the value of the equation of its name in muldiv_law.
#![tactic(auto)]

mod cycles;
mod signs;
mod steps;

pub use cycles::{ends, next_count, next_halves};
