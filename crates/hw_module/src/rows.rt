use hw_expr::Net;
use thiserror::Error;

/// Who made a thing: the pipeline, or the entry of the plan with this number.
#[derive(Clone, Copy, Debug, PartialEq, Eq)]
pub enum Owner {
    Pipe,
    Entry(u32),
}

/// A thing that wants a driver, by its number.
#[derive(Clone, Copy, Debug, PartialEq, Eq)]
pub enum Thing {
    /// The forward wire with this number.
    Wire(u32),
    /// The register with this number.
    Reg(u32),
    /// The array with this number.
    Array(u32),
    /// The output port with this number.
    Out(u32),
}

/// A forward wire of `width` bits. Its driver has a level below `level`.
#[derive(Clone, Copy, Debug, PartialEq, Eq)]
pub struct WireRow {
    pub owner: Owner,
    pub width: u32,
    pub level: u32,
    pub driver: Option<Net>,
}

/// A register of `width` bits, with the value that it takes in a reset, if it has one.
#[derive(Clone, Copy, Debug, PartialEq, Eq)]
pub struct RegRow {
    pub owner: Owner,
    pub width: u32,
    pub reset: Option<u64>,
    pub next: Option<Net>,
}

/// An array of 2 ^ `bits` cells of `width` bits.
#[derive(Clone, Copy, Debug, PartialEq, Eq)]
pub struct ArrayRow {
    pub owner: Owner,
    pub width: u32,
    pub bits: u32,
    pub write: Option<ArrayWrite>,
}

/// The one write of an array: where `enable` is 1, the cell that `addr` names takes `value` at the end of the
/// cycle.
#[derive(Clone, Copy, Debug, PartialEq, Eq)]
pub struct ArrayWrite {
    pub enable: Net,
    pub addr: Net,
    pub value: Net,
}

/// What a module lacks.
#[derive(Clone, Copy, Debug, PartialEq, Eq, Error)]
pub enum ModuleFault {
    /// This thing has no driver.
    #[error("a part of the circuit has no driver")]
    Undriven { thing: Thing },
}
