//! From names to numbers: the expressions of a tree as the nodes of a flat circuit.
//!
//! A table says for each name which node has its value, or which cells are its array's. The nodes of an
//! expression are appended behind those of the names in it, so that one sweep over all nodes settles
//! them. `specs/Flat` says which nodes these are, `specs/Means` what it is that a node has a name's value.
#![tactic(auto)]

mod driver;
mod expr;
mod names;
mod next;
mod source;
mod wires;

pub use driver::WireDriver;
pub use expr::{Operand, bind_wire, flatten};
pub use names::{Names, Place};
pub use next::push_restart;
pub use source::{bind_array, bind_node};
pub use wires::bind_wires;
