//! The text of a netlist has one reading, which is that netlist, and short rows.
#![tactic(auto)]

mod law;

pub use law::{netlists_are_plain, netlists_have_one_reading, rows_are_short};
