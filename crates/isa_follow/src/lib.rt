//! What it is for a run on the ports of a core to follow the machine, whatever circuit gives the run.
#![tactic(auto)]
