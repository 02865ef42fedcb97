ghost use Rattle.std.specs.Prelude.{◌≡◌, ◌+◌, ◌<◌, ◌^◌, [], ◌∷◌, ◌++◌, IfErr, IfOk, vec_len};
ghost use Rattle.verilog_flat.specs.Flat.{IsFit, IsWell};
ghost use Rattle.verilog_flat.specs.Props.{IsWell-prop};

use crate::node::Node;
use std::alloc::{AllocError, Global};

/// The nodes of a circuit in the making. How many registers, cells and input ports it has is fixed.
#[derive(Drop)]
pub struct Build {
    pub nodes: Vec<Node>,
    pub regs: usize,
    pub cells: usize,
    pub ins: usize,
    ghost well: { IsWell regs cells ins 0 nodes.items } by { IsWell-prop _ _ _ _ _ },
}

impl Build {
    ghost use Rattle.verilog_flat.specs.Builds.{IsSameRoom};

    /// No nodes.
    pub fn new(alloc: Global, regs: usize, cells: usize, ins: usize) -> Build
        ensures empty { result.nodes.items ≡ [] }
        ensures room { (result.regs ≡ regs) × (result.cells ≡ cells) × (result.ins ≡ ins) }
    {
        Build {
            nodes: Vec::new(alloc),
            regs,
            cells,
            ins,
        }
    }

    /// Appends a node, and answers its number. It fails without memory, and where there are 2^32 nodes already.
    #[tactic(auto, using(crate::proofs::Well::well_push))]
    pub fn push(&mut self, node: Node) -> Result<u32, AllocError>
        requires fits { IsFit self.old.regs self.old.cells self.old.ins (vec_len self.old.nodes) node }
        ensures number { IfOk result (λ at. at ≡ vec_len self.old.nodes) }
        ensures pushed { IfOk result (λ at. self.new.nodes.items ≡ self.old.nodes.items ++ (node ∷ [])) }
        ensures grows { IfOk result (λ at. vec_len self.new.nodes ≡ vec_len self.old.nodes + 1) }
        ensures failed { IfErr result (λ e. self.new.nodes.items ≡ self.old.nodes.items) }
        ensures same { IsSameRoom self.new self.old }
    {
        if self.nodes.len() > u32::MAX as usize {
            return Err(AllocError);
        }
        let at = self.nodes.len() as u32;
        self.nodes.push(node)?;
        Ok(at)
    }
}
