//! Modules in which each wire is one operator over names: their text and its tree, and their meaning. There are
//! definitions here and no code.
#![tactic(auto)]
