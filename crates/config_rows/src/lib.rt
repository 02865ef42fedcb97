//! The tests of configurations as text, of stages and keys, and of services. Tests alone: the crates that they call have
//! none of their own, and are proved once.
#![tactic(auto)]

#[cfg(test)]
mod configs;
#[cfg(test)]
mod maps;
#[cfg(test)]
mod rows;
#[cfg(test)]
mod services;
