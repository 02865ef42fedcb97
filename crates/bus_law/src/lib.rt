//! Memory, the two buses of a core, and what the bus and the core owe each other.
//!
//! The definitions speak of the signals of a bus by cycle, and no circuit occurs in them. The code is one memory and
//! the buses that answer over it.
#![tactic(auto)]

mod answerer;
mod laws;
mod memory;
mod side;
mod signals;

pub use answerer::Answerer;
pub use laws::{
    answers_are_honest, waits_are_short, waits_have_a_first_cycle, within_is_by_cycle,
    writes_are_stores,
};
pub use memory::Mem;
pub use signals::{BusIn, BusOut};
