//! The unit of multiplication and division as a plug-in (RISC-V Unprivileged 20191213, chapter 7): `Muldiv`, which makes 1, 2 or 4
//! steps in each cycle.
//!
//! An instruction takes 32 / `unroll` + 3 cycles: one loads, 32 / `unroll` make the steps, one turns the sign of the result over where
//! that is needed, and in the last one it ends. The arithmetic is in muldiv_law, the circuit in muldiv_nets.
#![tactic(auto)]

mod law;
mod nets;
mod plugin;

pub use law::{muldiv_is_right, muldiv_parts_meet_their_laws};
pub use plugin::Muldiv;
