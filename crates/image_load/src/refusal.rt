use thiserror::Error;

/// The most bytes that an image may have.
pub const MOST_BYTES: usize = 67_108_864;

/// Why an image was refused. A place `at` is counted in bytes of the image, from 0.
#[derive(Clone, Copy, Debug, PartialEq, Eq, Error)]
pub enum ImageRefusal {
    /// There are more than `MOST_BYTES` bytes, `len` in all.
    #[error("the image is too long")]
    TooLong { len: u64 },
    /// The byte at this place may not stand there.
    #[error("a byte of the image may not stand at its place")]
    Char { at: u32 },
    /// The bytes end at this place, inside a record.
    #[error("a record of the image is cut short")]
    Short { at: u32 },
    /// The checksum at this place is `found`, and the record's other bytes need `wanted`.
    #[error("a record of the image has a wrong checksum")]
    Sum { at: u32, found: u32, wanted: u32 },
    /// The kind of a record at this place is not known.
    #[error("a record of the image is of an unknown kind")]
    Kind { at: u32, found: u32 },
    /// The count of bytes at this place is not the one that the record's kind has.
    #[error("a record of the image has a wrong count of bytes")]
    Count { at: u32, found: u32, wanted: u32 },
    /// A byte belongs at this address outside memory, which may be 2 ^ 32 or more.
    #[error("a byte of the image lies outside memory")]
    Outside { addr: u64 },
    /// A byte that is no blank stands at this place, behind the end record.
    #[error("the image goes on after its end")]
    AfterEnd { at: u32 },
    /// The bytes end with no end record.
    #[error("the image has no end")]
    NoEnd,
}
