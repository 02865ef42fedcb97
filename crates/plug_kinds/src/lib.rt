//! The kinds of plug-ins as a table, what each plug-in keeps of its entry (`KindState`,
//! `PlainState`), and a plug-in for tests that builds nothing (`Idle`).
#![tactic(auto)]

mod fit;
mod given;
mod idle;
mod kind;
mod latency;
mod law;
mod params;
mod plain;
mod spec;
mod state;
mod table;

pub use fit::is_spec;
pub use idle::Idle;
pub use kind::{Kind, Values};
pub use law::{depths_are_bounded, kinds_fit};
pub use plain::PlainState;
pub use spec::spec_of;
pub use state::KindState;
