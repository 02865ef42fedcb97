use hw_pool::NodeId;

/// A live node of a pool, with its width in bits and its level.
#[derive(Clone, Copy, Debug, PartialEq, Eq)]
pub struct Net {
    pub id: NodeId,
    pub width: u32,
    pub level: u32,
}
