//! Circuits on words of 32 bits that several units share, and the laws of their values.
//!
//! `specs` has each circuit as a function of numbers, which a contract gives for all values. The laws say what these
//! functions are on numbers of 32 bits, and `proofs` has their lemmas for the units.
#![tactic(auto)]

mod bit;
mod compare;
mod immediate;
mod law;
mod shift;
mod sum;

pub use bit::{copies, gather};
pub use compare::{lower, same};
pub use immediate::{immediate_b, immediate_i, immediate_j, immediate_s, immediate_u};
pub use law::{adder_is_right, fields_are_met, halves_compare, one_is_gathered, shifts_are_right};
pub use shift::{reverse, shifted};
pub use sum::adder;
