//! The control and status registers of a machine as a value (RISC-V Privileged 20190608, chapter 3): reads and writes by number, the
//! entry of a trap or an interrupt, the return from it, and the interrupt to take. Each call is the definition of its name in isa_csr.
#![tactic(auto)]

mod registers;

pub use registers::Csrs;
