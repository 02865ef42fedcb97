//! The unit of loads, stores and FENCE as a plug-in (RISC-V Unprivileged 20191213, 2.6 and 2.7). It holds the data bus, and works in the
//! stage that commits.
//!
//! All is built in the first call: the registers get their next values, and the command on the data bus comes from them alone. So a
//! command is given from the cycle behind a go on, and none where one is given or a response is owed.
#![tactic(auto)]

mod build;
mod circuit;
mod command;
mod lanes;
mod law;
mod plugin;
mod read;
mod regs;
mod unit;

pub use law::dbus_parts_meet_their_laws;
pub use plugin::Dbus;
