ghost use Rattle.std.specs.Prelude.{◌≡◌, ◌+◌, ◌++◌, ◌<◌, ◌≤◌, ◌∷◌, [], length, Err, OnErr, OnOk};
ghost use Rattle.hw_pool.specs.Nodes.{node_at, AreChildren, IsPool, IsWidth};
ghost use Rattle.hw_pool.specs.Trees.{of_node, tree_of};
ghost use Rattle.hw_pool.specs.Frame.{Adds};

use crate::{Node, NodeId};
use std::alloc::Global;
use std::marker::Model;
use thiserror::Error;

/// The most nodes that a pool may have.
pub const MOST_NODES: u32 = 65_535;

/// Why no nodes were reserved.
#[derive(Clone, Copy, Debug, PartialEq, Eq, Error)]
pub enum PoolFault {
    /// The live nodes and those that were asked for are `wanted` together, and a pool has at most `limit`.
    #[error("the circuit has too many nodes")]
    Full { wanted: u64, limit: u32 },
    /// A growth was refused.
    #[error("out of memory")]
    NoMemory,
}

/// Nodes in the order in which they were added. Contracts see the list, and how many more can be added
/// without memory.
#[derive(Debug, Drop)]
pub struct Pool {
    nodes: Vec<Node>,
}

impl Model for Pool {
    ghost use Rattle.std.specs.Prelude.{◌-◌, length, min, vec_capacity};
    ghost use Rattle.hw_pool.specs.Nodes.{PoolValue, IsPool};

    ghost Value = { PoolValue };

    ghost view = { λ pool. record { nodes = pool.nodes.items; spare = min (vec_capacity pool.nodes) 65535 - length pool.nodes.items } };

    ghost invariant = { λ pool. IsPool pool.nodes.items };
}

impl Pool {
    /// A pool with no node. It takes no memory.
    pub fn new(alloc: Global) -> Pool
        ensures { result.nodes ≡ [] }
    {
        Pool {
            nodes: Vec::new(alloc),
        }
    }

    /// How many nodes are live.
    pub fn live(&self) -> u32
        ensures count { result ≡ length self.now.nodes }
        ensures pool { IsPool self.now.nodes }
    {
        self.nodes.len() as u32
    }

    /// How many more nodes can be added without memory.
    pub fn spare(&self) -> u32
        ensures { result ≡ self.now.spare }
    {
        let room = self.nodes.capacity().min(MOST_NODES as usize);
        (room - self.nodes.len()) as u32
    }

    /// Makes room for `n` more nodes. Live nodes stay as they were, also after a refusal.
    ///
    /// # Errors
    /// `Full` exactly where the live nodes and `n` more are above `MOST_NODES`, with their sum and that limit.
    /// `NoMemory` where a growth was refused.
    #[tactic(auto, using(crate::proofs::Frames::adds_nothing))]
    pub fn reserve(&mut self, n: u32) -> Result<(), PoolFault>
        ensures room { OnOk result (n ≤ self.new.spare) }
        ensures same { self.new.nodes ≡ self.old.nodes }
        ensures full { 65535 < length self.old.nodes + n → result ≡ Err (PoolFault.Full (length self.old.nodes + n) 65535) }
        ensures within { length self.old.nodes + n ≤ 65535 → OnErr result (result ≡ Err PoolFault.NoMemory) }
        ensures adds { Adds self.old self.new 0 }
    {
        let wanted = self.nodes.len() as u64 + u64::from(n);
        if wanted > u64::from(MOST_NODES) {
            return Err(PoolFault::Full {
                wanted,
                limit: MOST_NODES,
            });
        }
        match self.nodes.reserve(n as usize) {
            Ok(()) => Ok(()),
            Err(_) => Err(PoolFault::NoMemory),
        }
    }

    /// Adds a node over live ones, and answers its number. It takes no memory.
    pub fn add(&mut self, node: Node) -> NodeId
        requires spare { 1 ≤ self.old.spare }
        requires width { IsWidth node.width }
        requires children { AreChildren self.old.nodes (length self.old.nodes) node.level node.op }
        ensures live { result.0 < length self.new.nodes }
        ensures grown { length self.old.nodes < length self.new.nodes → result.0 ≡ length self.old.nodes }
        ensures pool { IsPool self.new.nodes }
        ensures node { node_at self.new.nodes result.0 ≡ node }
        ensures tree { tree_of self.new.nodes result.0 ≡ of_node (tree_of self.old.nodes) node }
        ensures adds { Adds self.old self.new 1 }
    {
        let id = NodeId(self.nodes.len() as u32);
        self.append(node);
        id
    }

    /// Puts a node behind the others.
    fn append(&mut self, node: Node)
        requires spare { 1 ≤ self.old.spare }
        requires width { IsWidth node.width }
        requires children { AreChildren self.old.nodes (length self.old.nodes) node.level node.op }
        ensures last { self.new.nodes ≡ self.old.nodes ++ node ∷ [] }
        ensures pool { IsPool self.new.nodes }
        ensures tree { tree_of self.new.nodes (length self.old.nodes) ≡ of_node (tree_of self.old.nodes) node }
        ensures adds { Adds self.old self.new 1 }
    {
        let _ = self.nodes.push(node);
    }

    /// The node of this number.
    pub fn get(&self, id: NodeId) -> &Node
        requires live { id.0 < length self.now.nodes }
        ensures { result.now ≡ node_at self.now.nodes id.0 }
    {
        &self.nodes[id.0 as usize]
    }
}
