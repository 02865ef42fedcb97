use crate::mark::Mark;
use std::alloc::{AllocError, Global};

/// A search in progress.
#[derive(Drop)]
pub struct Search {
    /// How far it has come with each node.
    pub marks: Vec<Mark>,
    /// How many of the needs of each node are known to stand in the order, from the first on.
    pub done: Vec<usize>,
    /// The nodes that it is at: each needs the one behind it.
    pub path: Vec<u32>,
    /// The nodes all of whose needs stand before them.
    pub order: Vec<u32>,
}

impl Search {
    ghost use Rattle.std.specs.Prelude.{◌≡◌, ◌+◌, ◌^◌, ◌<◌, [], IfOk, OnOk, get_or, length, replicate, vec_len};
    ghost use Rattle.topo_sort.specs.Ranks.{rank_of, ranks};
    ghost use Rattle.topo_sort.specs.Moves.{Enters, IsTop, Leaves, Passes};

    /// A search of a graph of so many nodes, all of them new.
    pub fn new(alloc: Global, count: usize) -> Result<Search, AllocError>
        ensures marks { IfOk result (λ s. ranks s ≡ replicate count 0) }
        ensures done { IfOk result (λ s. s.done.items ≡ replicate count 0) }
        ensures path { IfOk result (λ s. s.path.items ≡ []) }
        ensures order { IfOk result (λ s. s.order.items ≡ []) }
    {
        let marks = Vec::from_elem(alloc, Mark::New, count)?;
        let done = Vec::from_elem(alloc, 0usize, count)?;
        Ok(Search {
            marks,
            done,
            path: Vec::new(alloc),
            order: Vec::new(alloc),
        })
    }

    /// How far the search has come with a node.
    pub fn mark(&self, node: u32) -> Mark
        requires { node < vec_len self.now.marks }
        ensures { rank_of result ≡ get_or (ranks self.now) node 0 }
    {
        self.marks[node as usize]
    }

    /// How many of a node's needs are known to stand in the order.
    pub fn done(&self, node: u32) -> usize
        requires { node < vec_len self.now.done }
        ensures { result ≡ get_or self.now.done.items node 0 }
    {
        self.done[node as usize]
    }

    /// Puts a new node on the path.
    pub fn enter(&mut self, node: u32) -> Result<(), AllocError>
        requires { node < vec_len self.old.marks }
        ensures { OnOk result (Enters self.old self.new node) }
    {
        self.path.push(node)?;
        self.marks[node as usize] = Mark::Open;
        Ok(())
    }

    /// Puts the last node of the path into the order.
    pub fn leave(&mut self, top: u32) -> Result<(), AllocError>
        requires node { top < vec_len self.old.marks }
        requires top { IsTop self.old.path.items top }
        requires few { vec_len self.old.order < 2 ^ 32 }
        ensures { OnOk result (Leaves self.old self.new top) }
    {
        let place = self.order.len() as u32;
        self.order.push(top)?;
        self.marks[top as usize] = Mark::Placed { place };
        let _ = self.path.pop();
        Ok(())
    }

    /// Notes that so many of a node's needs stand in the order.
    pub fn pass(&mut self, node: u32, done: usize)
        requires { node < vec_len self.old.done }
        ensures { Passes self.old self.new node done }
    {
        self.done[node as usize] = done;
    }
}
