//! The tests of the plug-ins' public calls: what each says of entries. Tests alone: the crates of the plug-ins have none of their own,
//! and are proved once.
#![tactic(auto)]

#[cfg(test)]
mod configure;
