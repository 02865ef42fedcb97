//! A module under construction: forward wires, registers, arrays and the outputs of a core.
//!
//! Wires, registers and arrays are numbered from 0, each kind by itself. Ports have the numbers of their places
//! in the list of all ports (`specs/Ports`). Each thing is made with its widths, and is driven once by a net
//! that fits the module (`specs/Fits`), that is, by one in the module's scope (`specs/Scope`). Each thing has an
//! owner; what an owner adds leaves the things of others as they were, but for its rights (`specs/Rights`).
//! Memory is taken by `with_room` alone.
#![tactic(auto)]

mod check;
mod drive;
mod law;
mod module;
mod ports;
mod read;
mod rows;

pub use law::{drivers_keep, makes_chain, scopes_fit};
pub use module::Module;
pub use ports::{PORTS, is_output, port_width};
pub use rows::{ArrayRow, ArrayWrite, ModuleFault, Owner, RegRow, Thing, WireRow};
