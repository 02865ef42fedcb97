//! The nodes of a circuit's expressions.
//!
//! A node is an operator over nodes of the same pool. Children come before their parents, so each live node
//! has a finite tree (`specs/Trees`), and a tree has a value for all values of the inputs, forward wires,
//! registers and arrays (`specs/Meaning`). What a tree may take from outside is told by a scope
//! (`specs/Scope`). Nodes that are added leave live nodes as they were (`specs/Frame`). Memory is taken by
//! `reserve` alone.
#![tactic(auto)]

mod law;
mod node;
mod pool;

pub use law::{takes_higher, trees_unfold, values_fit};
pub use node::{Node, NodeId, Op};
pub use pool::{MOST_NODES, Pool, PoolFault};
