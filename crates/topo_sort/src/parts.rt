ghost use Rattle.std.specs.Prelude.{◌<◌, ◌^◌, length};

use crate::falls::rank_in;
use sqlite_items::Items;
use std::alloc::{AllocError, Global};

/// A search in depth for the parts of a graph whose nodes lead to each other. What it finds is tried before it is used,
/// so that no clause speaks of it. Numbers are from 1 on, and 0 stands for none.
#[derive(Drop)]
struct Parts {
    /// The turn in which the search came to each node.
    turns: Vec<u32>,
    /// The least turn that is known to be led to from each node, of those without a part.
    lows: Vec<u32>,
    /// How many needs of each node were followed.
    done: Vec<u32>,
    /// The nodes that the search is at.
    path: Vec<u32>,
    /// The nodes without a part, in the order of their turns.
    open: Vec<u32>,
    /// The part of each node.
    parts: Vec<u32>,
    turn: u32,
    part: u32,
}

/// Sets a number of a node, if there is one.
fn put(list: &mut Vec<u32>, node: u32, value: u32) {
    if let Some(place) = list.get_mut(node as usize) {
        *place = value;
    }
}

/// One of a node's needs.
fn need_at(edges: &[Items<u32>], node: u32, at: u32) -> Option<u32> {
    match edges.get(node as usize) {
        Some(needs) => needs.as_slice().get(at as usize).copied(),
        None => None,
    }
}

impl Parts {
    fn new(alloc: Global, count: usize) -> Result<Parts, AllocError> {
        Ok(Parts {
            turns: Vec::from_elem(alloc, 0u32, count)?,
            lows: Vec::from_elem(alloc, 0u32, count)?,
            done: Vec::from_elem(alloc, 0u32, count)?,
            path: Vec::new(alloc),
            open: Vec::new(alloc),
            parts: Vec::from_elem(alloc, 0u32, count)?,
            turn: 0,
            part: 0,
        })
    }

    /// Comes to a node.
    fn enter(&mut self, node: u32) -> Result<(), AllocError> {
        self.turn = self.turn.saturating_add(1);
        put(&mut self.turns, node, self.turn);
        put(&mut self.lows, node, self.turn);
        self.path.push(node)?;
        self.open.push(node)?;
        Ok(())
    }

    /// Notes that a node leads to this turn.
    fn lower(&mut self, node: u32, turn: u32) {
        let low = rank_in(self.lows.as_slice(), node).min(turn);
        put(&mut self.lows, node, low);
    }

    /// Goes back from the last node of the path. Where nothing before it is led to, the nodes from it on are a part.
    fn leave(&mut self, top: u32) {
        let _ = self.path.pop();
        let low = rank_in(self.lows.as_slice(), top);
        if let Some(&before) = self.path.last() {
            self.lower(before, low);
        }
        if low == rank_in(self.turns.as_slice(), top) {
            self.part = self.part.saturating_add(1);
            for _ in 0..self.open.len() {
                match self.open.pop() {
                    Some(node) => {
                        put(&mut self.parts, node, self.part);
                        if node == top {
                            return;
                        }
                    }
                    None => return,
                }
            }
        }
    }

    /// One step from the last node of the path.
    fn step(&mut self, edges: &[Items<u32>], top: u32) -> Result<(), AllocError> {
        let done = rank_in(self.done.as_slice(), top);
        match need_at(edges, top, done) {
            Some(need) => {
                put(&mut self.done, top, done.saturating_add(1));
                if rank_in(self.turns.as_slice(), need) == 0 {
                    return self.enter(need);
                }
                if rank_in(self.parts.as_slice(), need) == 0 {
                    let turn = rank_in(self.turns.as_slice(), need);
                    self.lower(top, turn);
                }
            }
            None => self.leave(top),
        }
        Ok(())
    }
}

/// A bound on the steps from all nodes.
fn steps(edges: &[Items<u32>]) -> usize {
    let mut sum: usize = edges.len();
    for needs in edges {
        sum = sum.saturating_add(needs.as_slice().len());
    }
    sum
}

/// The part of each node: nodes that lead to each other have the same, and what a part needs has a smaller number.
pub fn parts_of(alloc: Global, edges: &[Items<u32>]) -> Result<Vec<u32>, AllocError>
    requires { length edges.now < 2 ^ 32 }
{
    let mut search = Parts::new(alloc, edges.len())?;
    let most = steps(edges);
    for root in 0..edges.len() {
        let root = root as u32;
        if rank_in(search.turns.as_slice(), root) == 0 {
            search.enter(root)?;
            for _ in 0..most {
                match search.path.last() {
                    Some(&top) => search.step(edges, top)?,
                    None => break,
                }
            }
        }
    }
    let Parts { parts, .. } = search;
    Ok(parts)
}
