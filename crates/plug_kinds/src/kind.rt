/// The kinds of plug-ins.
#[derive(Clone, Copy, Debug, PartialEq, Eq)]
pub enum Kind {
    Fetch,
    Icache,
    Predict,
    Fencei,
    Decoder,
    Regfile,
    Hazard,
    Alu,
    ShiftLight,
    ShiftBarrel,
    Muldiv,
    Branch,
    Dbus,
    Csr,
}

/// The values that a parameter may have.
#[derive(Clone, Copy, Debug, PartialEq, Eq)]
pub enum Values {
    /// Integers from `low` to `high`.
    Whole { low: u32, high: u32 },
    /// Powers of two from `low` to `high`.
    Power { low: u32, high: u32 },
    /// True or false.
    Truth,
    /// The words `next` and `static`.
    Style,
}
