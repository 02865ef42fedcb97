//! The outside of the program: named files to pull from and two ports to push on.
#![tactic(auto)]

mod host;
mod list;
mod loops;
mod memory;
mod name;
mod real;
mod text;

pub use host::{Host, HostFailed, Port};
pub use list::List;
pub use loops::{ReadEnd, push_all, read_file};
pub use memory::{MemFile, MemHost};
pub use name::Name;
pub use real::RealHost;
pub use text::TextHost;
