//! Units that are done at once with a value and never trap: what they say of themselves, how they are built, their parts, and the law
//! that these keep.
//!
//! Who writes such a unit gives the circuit of its value (`Computes`), and shows that each row that it takes computes it.
#![tactic(auto)]

mod law;
mod ports;
mod spec;
mod unit;

pub use law::{computing_parts_meet_their_laws, computing_units_begin, units_meet_their_laws};
pub use ports::computing_ports;
pub use spec::unit_spec;
pub use unit::{Computes, build_unit};
