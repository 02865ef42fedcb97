//! The unit of CSR accesses, MRET and WFI by equations for each cycle, and its laws: it keeps the CSRs, and with them the laws of Exec
//! and of System (RISC-V Unprivileged 20191213, chapter 9; RISC-V Privileged 20190608, 3.1 and 3.2).
#![tactic(auto)]

ghost use Rattle.csr_law.specs.Law.{CsrKeepsExec, CsrKeepsSystem};
ghost use Rattle.csr_law.specs.Runs.{CsrHasRuns};

/// A unit whose registers and outputs are the equations keeps the law of Exec for its rows, at 2 cycles, and that of System, both at
/// the CSRs that it keeps. This does nothing: its contract is the laws.
pub fn csr_keeps_its_laws()
    ensures exec { CsrKeepsExec }
    ensures system { CsrKeepsSystem }
{}

/// The equations have a run for all inputs, events and interrupt lines. This does nothing: its contract is the law.
pub fn csr_has_runs()
    ensures runs { CsrHasRuns }
{}
