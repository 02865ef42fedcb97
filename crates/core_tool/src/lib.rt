//! The calls of the program, over a host: what its words ask for, and how a call ends.
#![tactic(auto)]

mod call;
mod ends;
mod law;
mod lines;
mod options;
mod ports;
mod rules;
mod run;
mod span;
mod status;
mod words;

pub use call::core_main;
pub use ends::push_rule;
pub use law::{
    boxes_stay, calls_are_complete, every_call_ends, faults_leave_prefixes, texts_leave_notes,
};
pub use status::Status;
