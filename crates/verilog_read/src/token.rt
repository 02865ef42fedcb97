use core_host::Name;

/// The operators and marks of the language.
#[derive(Clone, Copy, Debug, PartialEq, Eq)]
pub enum Sign {
    Open,
    Close,
    OpenBracket,
    CloseBracket,
    OpenBrace,
    CloseBrace,
    Comma,
    Semicolon,
    Colon,
    Question,
    Assign,
    LessEqual,
    Less,
    Equal,
    Plus,
    Minus,
    And,
    Or,
    Xor,
    Not,
    At,
}

/// What a token says.
#[derive(Drop)]
pub enum Token {
    /// A name or a word of the grammar.
    Word(Name),
    /// A number without a size.
    Number(u32),
    /// A number with a size.
    Literal { width: u32, value: u64 },
    /// An operator or a mark.
    Mark(Sign),
}

/// A token and the place of its first byte.
#[derive(Drop)]
pub struct Placed {
    pub at: u32,
    pub token: Token,
}
