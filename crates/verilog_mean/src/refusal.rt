use thiserror::Error;

/// Why a tree is not sound: a rule of soundness that fails, at a place of the text (an offset of a byte).
///
/// Widths are in bits. The rules are defined in `specs/`, in the order of the variants.
#[derive(Clone, Copy, Debug, PartialEq, Eq, Error)]
pub enum MeanRefusal {
    /// A name is declared again, at this place.
    #[error("a name is declared twice")]
    NameTwice {
        at: u32,
    },
    /// A number of a range or of an array's cells is not one that may stand there.
    #[error("a range or an array has a size that is not allowed")]
    BadSize {
        at: u32,
        found: u32,
    },
    /// A name is used before its declaration or without one; or `clk` or `reset` is no input of one bit.
    #[error("a name is not declared")]
    NameUnknown {
        at: u32,
    },
    /// A name is used as something that it is not.
    #[error("a name is of another kind")]
    KindDiffers {
        at: u32,
    },
    /// The bits that are selected are not all bits of the name.
    #[error("bits are selected outside a name's width")]
    SelectOutside {
        at: u32,
        high: u32,
        low: u32,
        width: u32,
    },
    /// Two widths that are to be equal differ, or a condition, an index or a join has a width that it may not have.
    #[error("widths differ")]
    WidthDiffers {
        at: u32,
        left: u32,
        right: u32,
    },
    /// A name has a second driver, at this place.
    #[error("a name is driven twice")]
    DriverTwice {
        at: u32,
    },
    /// A wire, an output, a register or an array has no driver.
    #[error("a name is not driven")]
    DriverMissing {
        at: u32,
    },
    /// A wire or an output depends on itself.
    #[error("a wire depends on itself")]
    Loop {
        at: u32,
    },
    /// Memory ran out.
    #[error("no memory")]
    NoMemory,
}
