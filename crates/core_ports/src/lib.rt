//! The ports of a core, and what a run shows on them: bus signals, interrupt lines and events.
//!
//! The crate holds definitions alone. A run is here the value of each name in each cycle, whatever circuit gives it.
#![tactic(auto)]
