//! The unit of CSR accesses, MRET and WFI as a plug-in, with traps and interrupts (RISC-V Unprivileged 20191213, chapter 9; RISC-V
//! Privileged 20190608, 3.1 and 3.2). It keeps the control and status registers, and works in the stage that commits.
//!
//! All is built in the first call: the registers get their next values from what the unit is given and from what it is told of
//! events. An event that enters the handler prevails over what the unit's own instruction writes.
#![tactic(auto)]

mod build;
mod isa;
mod law;
mod plugin;
mod read;
mod regs;

pub use law::csr_parts_meet_their_laws;
pub use plugin::Csr;
