//! What it is for a core to be right: its runs follow the machine, and its text has one reading that does.
#![tactic(auto)]
