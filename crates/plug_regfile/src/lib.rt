//! The registers x0 to x31 as a plug-in: 32 cells of 32 bits in an array, read in the same cycle and written at a cycle's end.
//! Register 0 reads 0, whatever its cell holds (RISC-V Unprivileged ISA 20191213, 2.1).
#![tactic(auto)]

mod circuit;
mod find;
mod law;
mod plugin;

pub use law::regfile_parts_meet_their_laws;
pub use plugin::RegFile;
