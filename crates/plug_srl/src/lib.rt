//! A plug-in of one's own: a unit for SRL, the logical right shift by a register (RISC-V Unprivileged 20191213, 2.4.2).
//!
//! It stands for what a user of this library writes: no crate of the product knows it. docs/plug-ins.md goes through it step by
//! step.
#![tactic(auto)]

mod plugin;

pub use plugin::Srl;
