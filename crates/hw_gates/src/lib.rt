//! The operators of `hw_expr`, with contracts that pass over many calls.
//!
//! Each fact of a net is a function of its place in the pool (`specs/Places`): that it is live, its width and
//! level, its value, and that a scope has what it takes. A call adds at most so many nodes, and keeps the places of
//! live nets (`Step`): one equation carries every fact. So a function of up to twelve calls over up to four nets is
//! proved with no proof file; where a goal stays open, its attribute names `using(hw_gates::proofs::Plain::plain)`.
//! For loops `proofs/Steps` has the lemmas that join steps.
//!
//! What `hw_expr` and `hw_module` say of a net, of a call that reads a wire, register, array or input, and of a
//! scope is turned into these facts, and back, by the lemmas of `proofs/Has` and `proofs/Steps`: `has_of` and
//! `net_of`, `value_is`, `is_in` and `in_scope`, `step_of` and `adds_of`.
#![tactic(auto)]

mod gate;

pub use gate::{add, and, cat, eq, lit, ltu, mux, not, or, slice, sub, xor};
