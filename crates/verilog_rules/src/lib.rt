//! The checker of sound trees: it tries nine rules, in their order, and answers the first refusal.
#![tactic(auto)]

mod declare;
mod drivers;
mod edges;
mod kinds;
mod known;
mod loops;
mod names;
mod once;
mod ports;
mod rules;
mod selects;
mod sizes;
mod sources;
mod table;
mod widths;

pub use rules::check_tree;
