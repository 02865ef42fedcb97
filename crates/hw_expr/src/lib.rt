//! Expressions over the nodes of a pool.
//!
//! A net names a live node with its width and its level. Each call adds nodes for a function of nets, and
//! answers a net whose value is that function of their values, whatever the inputs, forward wires, registers
//! and arrays hold (`specs/Nets`). Nets and values that were there stay. The calls need spare nodes in the
//! pool, take no memory and never refuse.
//!
//! A function of up to six calls is proved with no proof file where its attribute names
//! `using(hw_pool::proofs::Frames::adds_then)`. In a longer one join the clauses `adds`, `nets` and `values` of
//! its calls by hand, or split it.
#![tactic(auto)]

mod choice;
mod law;
mod net;
mod signed;
mod single;

pub use choice::{mux_tree, one_hot};
pub use law::{bound, signed_order};
pub use net::Net;
pub use signed::{lts, sra_by};
pub use single::{add, and, cat, eq, lit, ltu, mux, not, or, put, slice, sub, xor};
