//! An order of a graph's nodes in which each node stands behind those that it needs, or a node that leads to itself.
//!
//! The nodes of a graph of n nodes are the numbers below n; for each there is a list of the nodes that it needs, which
//! are its edges. The search goes in depth, by a path that it keeps itself, and takes time linear in the nodes and
//! the edges together. `specs/Order` says what the order is, `specs/Search` what the search knows at each step.
#![tactic(auto)]

mod falls;
mod mark;
mod order;
mod parts;
mod reach;
mod search;
mod step;

pub use falls::ranks_of;
pub use order::sort;
pub use reach::leads_back;
pub use step::Stop;
