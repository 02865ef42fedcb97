//! One clock cycle of a module of nodes, simulated.
//!
//! `Cycle` holds the numbers of a module's registers and arrays. A step gives the outputs for the inputs of one
//! cycle, and then the registers and arrays take their next values, all at once (IEEE 1364-2005, 9.2.2). What a
//! cycle means is said in `specs/Cycle` of the module's crate. Memory is taken by `Cycle::new` alone.
#![tactic(auto)]

mod array;
mod commit;
mod cycle;
mod law;
mod numbers;
mod ports;
mod settle;
mod value;

pub use cycle::Cycle;
pub use law::holds;
