//! The unit of loads and stores by equations for each cycle, and its law: it keeps the law of Exec with the data bus
//! (RISC-V Unprivileged 20191213, 2.6).
#![tactic(auto)]

ghost use Rattle.dbus_law.specs.Law.{DbusKeepsLaw, DbusReadsOnce};
ghost use Rattle.dbus_law.specs.Runs.{DbusHasRuns};

/// A unit whose registers, commands and outputs are the equations keeps the law of Exec for loads, stores and FENCE, at 4 + 2 w
/// cycles, and a load reads its word exactly once. This does nothing: its contract is the laws.
pub fn dbus_keeps_its_law()
    ensures law { DbusKeepsLaw }
    ensures reads { DbusReadsOnce }
{}

/// The equations have a run for all inputs and each memory, on a bus that takes a command at once and answers it in the next cycle. This
/// does nothing: its contract is the law.
pub fn dbus_has_runs()
    ensures runs { DbusHasRuns }
{}
