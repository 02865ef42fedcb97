//! The tests of the calls over a host. Tests alone: the crates that they call have none of their own, and are proved once.
#![tactic(auto)]

#[cfg(test)]
mod caches;
#[cfg(test)]
mod calls;
#[cfg(test)]
mod csrs;
#[cfg(test)]
mod exits;
#[cfg(test)]
mod hosts;
#[cfg(test)]
mod irqs;
#[cfg(test)]
mod jumps;
#[cfg(test)]
mod loads;
#[cfg(test)]
mod rows;
#[cfg(test)]
mod runs;
#[cfg(test)]
mod units;
