//! The machine: its state, its steps and its runs, one instruction at a time.
//!
//! The crate holds definitions alone. They know no circuit, no stage and no plug-in.
#![tactic(auto)]
