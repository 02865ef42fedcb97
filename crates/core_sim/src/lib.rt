//! Runs of a core's tree over buses that answer as one memory.
//!
//! A core and its buses are stepped in turn, cycle by cycle (`specs/Joint`), until the program asks for its end, an
//! event stops the core, or as many cycles passed as were asked for (`specs/Ends`). Interrupt lines are 1 in spans of
//! cycles (`specs/Spans`). Writes to the host window give the host text and the exit (`specs/Window`); in place of the
//! text each event can give a line (`specs/Lines`). Where the run follows the machine, both are the output of the
//! machine's run (`specs/Output`).
#![tactic(auto)]

mod bench;
mod ended;
mod event;
mod law;
mod line;
mod pending;
mod ports;
mod run;

pub use ended::{BusName, Ended, IrqSpan, RunOpts, SimRefusal};
pub use law::{answered_runs_are_honest, outputs_agree};
pub use run::run_tree;
