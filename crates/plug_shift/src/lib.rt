//! The units of the shifts (RISC-V Unprivileged 20191213, 2.4.1 and 2.4.2), each as a plug-in: `ShiftBarrel`, which is done at once, and
//! `ShiftLight`, which moves one place in each cycle.
//!
//! Both look at a few bits of the word, since the word is of a row that they take.
#![tactic(auto)]

mod at_once;
mod by_places;
mod circuit;
mod law;
mod steps;

pub use at_once::ShiftBarrel;
pub use by_places::ShiftLight;
pub use law::{shift_barrel_is_right, shift_light_is_right};
