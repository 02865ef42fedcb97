//! A part of a core alone under test, stepped by `hw_cycle`.
//!
//! A module with one part lacks what the rest of a core drives: the inputs of its services, and outputs of the core. A
//! `Bench` puts a register of the test at each such forward wire, one behind each net that the test is to see, and 0 at each
//! other output of the core. So the module is whole, its cycles are those of `Cycle`, and the test acts between cycles: it
//! sets the registers at inputs, and reads those behind outputs.
#![tactic(auto)]

mod bench;
mod close;
mod ports;

pub use bench::{Bench, BenchFault};
