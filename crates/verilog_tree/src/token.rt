/// What a token is (IEEE 1364-2005, section 3).
#[derive(Clone, Copy, Debug, PartialEq, Eq)]
pub enum TokenKind {
    /// A name or a word of the grammar, as `wire` (3.7).
    Word,
    /// A number without a size, as `31` (3.5.1).
    Number,
    /// A number with a size and a base, as `8'h1f` (3.5.1).
    Literal,
    /// An operator or a mark, as `<=` or `;` (3.4).
    Sign,
}

/// A token of a text. What it says is the text from one place up to another.
#[derive(Clone, Copy, Debug, PartialEq, Eq)]
pub struct Token {
    pub kind: TokenKind,
    /// The place of its first byte.
    pub from: u32,
    /// The place behind its last byte.
    pub to: u32,
}
