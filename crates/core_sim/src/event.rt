/// What the event ports of a core tell in a cycle. `kind` is 0 for a retirement, 1 for a trap, 2 for an
/// interrupt, and 3 for a trap that stops the core.
#[derive(Clone, Copy, Drop)]
pub struct Event {
    pub kind: u32,
    pub pc: u32,
    pub word: u32,
    pub rd: u32,
    pub value: u32,
    pub cause: u32,
}

/// A write on the data bus: its address with the low two bits cleared, its word with 0 in the lanes that the mask
/// leaves out, and the mask, whose bit k is the lane of bits 8 k + 7 to 8 k.
#[derive(Clone, Copy, Drop)]
pub struct Write {
    pub addr: u32,
    pub value: u32,
    pub mask: u32,
}

/// What is told of a cycle: the event that the core has in it, and the write that the data bus accepts in it.
#[derive(Clone, Copy, Drop)]
pub struct Told {
    pub event: Option<Event>,
    pub write: Option<Write>,
}
