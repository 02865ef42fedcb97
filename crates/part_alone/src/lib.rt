//! The part of one plug-in, built alone by its two calls, under test.
//!
//! Nothing is built before in the module, or the registers alone, so all that the two calls need is known. What services the part offers
//! says which wires and nets a `Stand` has.
#![tactic(auto)]

mod build;
mod plan;
mod stands;

pub use build::{stand_alone, stand_beside, stand_decoder};
pub use stands::Stand;
