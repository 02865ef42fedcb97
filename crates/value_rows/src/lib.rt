//! The tests of the lowest crates' public calls: values, widths and texts worked out by hand. Tests alone: the crates that they
//! call have none of their own, and are proved once.
#![tactic(auto)]

#[cfg(test)]
mod buses;
#[cfg(test)]
mod circuits;
#[cfg(test)]
mod counters;
#[cfg(test)]
mod digits;
#[cfg(test)]
mod entries;
#[cfg(test)]
mod gates;
#[cfg(test)]
mod hosts;
#[cfg(test)]
mod images;
#[cfg(test)]
mod instructions;
#[cfg(test)]
mod lines;
#[cfg(test)]
mod nets;
#[cfg(test)]
mod pools;
#[cfg(test)]
mod rows;
#[cfg(test)]
mod things;
#[cfg(test)]
mod words;
