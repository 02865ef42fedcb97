//! The circuit of the unit of CSR accesses, MRET and WFI: what it says in a cycle, the interrupt to take, and what its registers hold
//! behind it.
//!
//! A CSR is named by its number, which is compared in two parts, the upper nine bits and the lower three; the value read is the
//! "or" of a mask for each number. Each net has the value of an equation of `specs/Machine`, and `proofs/Bits` shows that these
//! are the equations of csr_law where bits are below 2.
#![tactic(auto)]

mod after;
mod form;
mod gather;
mod number;
mod pending;
mod unit;

pub use after::Nexts;
pub use pending::Interrupt;
pub use unit::{Cycle, Given, Held, Lines, Outs, Shown, Told, unit_nets};
