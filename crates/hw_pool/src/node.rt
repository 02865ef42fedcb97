/// The number of a node in its pool, from 0.
#[derive(Clone, Copy, Debug, PartialEq, Eq)]
pub struct NodeId(pub u32);

/// An operator over nodes. Values are unsigned numbers of the node's width (IEEE 1364-2005, clause 5.1).
#[derive(Clone, Copy, Debug, PartialEq, Eq)]
pub enum Op {
    /// This number.
    Lit(u64),
    /// The input of the module with this number.
    Input(u32),
    /// The forward wire with this number.
    Wire(u32),
    /// The register with this number.
    Reg(u32),
    /// Each bit turned over.
    Not(NodeId),
    /// Bitwise "and".
    And(NodeId, NodeId),
    /// Bitwise "or".
    Or(NodeId, NodeId),
    /// Bitwise "exclusive or".
    Xor(NodeId, NodeId),
    /// The sum, modulo 2 ^ the width.
    Add(NodeId, NodeId),
    /// The difference, modulo 2 ^ the width.
    Sub(NodeId, NodeId),
    /// 1 where both are equal, else 0.
    Eq(NodeId, NodeId),
    /// 1 where the first is less than the second, else 0.
    Ltu(NodeId, NodeId),
    /// The second where the first is 1, else the third.
    Mux(NodeId, NodeId, NodeId),
    /// The first above the second.
    Cat(NodeId, NodeId),
    /// Bits of a node, from the higher to the lower place.
    Slice(NodeId, u32, u32),
    /// The cell of the array with this number that the node names.
    Read(u32, NodeId),
}

/// An operator with the width of its value in bits, and its level: its depth in the order of evaluation.
#[derive(Clone, Copy, Debug, PartialEq, Eq)]
pub struct Node {
    pub op: Op,
    pub width: u32,
    pub level: u32,
}
