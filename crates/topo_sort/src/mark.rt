/// How far a search has come with a node.
#[derive(Clone, Copy, Debug, PartialEq, Eq)]
pub enum Mark {
    /// The search has not come to it.
    New,
    /// It stands on the path.
    Open,
    /// It stands in the order, at this place.
    Placed { place: u32 },
}
