use core_host::Name;
use sqlite_items::{Boxed, Items};

/// A name as it is used at a place (IEEE 1364-2005, 3.7).
#[derive(Debug, Drop)]
pub struct Ident {
    pub at: u32,
    pub text: Name,
}

/// A number without a size, which stands between brackets (3.5.1).
#[derive(Clone, Copy, Debug, PartialEq, Eq)]
pub struct Num {
    pub at: u32,
    pub value: u32,
}

/// A number with a size, as `8'h1f` (3.5.1).
#[derive(Clone, Copy, Debug, PartialEq, Eq)]
pub struct Lit {
    pub at: u32,
    pub width: u32,
    pub value: u64,
}

/// Two numbers in brackets, as `[7:0]`: the range of a name (4.3), the cells of an array (4.9), or the
/// bits that are selected (5.2.1). `at` is the place of `[`.
#[derive(Clone, Copy, Debug, PartialEq, Eq)]
pub struct Pair {
    pub at: u32,
    pub first: Num,
    pub second: Num,
}

/// An operator of two operands (5.1).
#[derive(Clone, Copy, Debug, PartialEq, Eq)]
pub enum BinSign {
    /// `|` (5.1.10).
    Or,
    /// `^` (5.1.10).
    Xor,
    /// `&` (5.1.10).
    And,
    /// `==` (5.1.8).
    Equal,
    /// `<` (5.1.7).
    Less,
    /// `+` (5.1.5).
    Plus,
    /// `-` (5.1.5).
    Minus,
}

/// An expression (section 5). Parentheses are kept, so that each text has a tree of its own.
#[derive(Drop)]
pub enum Expr {
    /// A number with a size, as `8'h1f`.
    Literal(Lit),
    /// A name.
    Named(Ident),
    /// Some bits of a name, as `a[7:4]` (5.2.1).
    Select {
        name: Ident,
        bits: Pair,
    },
    /// A cell of an array, as `m[a]` (5.2.2). `bracket_at` is the place of `[`.
    Cell {
        name: Ident,
        bracket_at: u32,
        index: Boxed<Expr>,
    },
    /// An expression in parentheses. `at` is the place of `(`.
    Paren {
        at: u32,
        inner: Boxed<Expr>,
    },
    /// `~` and its operand (5.1.10). `at` is the place of `~`.
    Not {
        at: u32,
        inner: Boxed<Expr>,
    },
    /// Parts in braces, as `{a, b}`, the highest first (5.1.14). `at` is the place of `{`.
    Join {
        at: u32,
        parts: Items<Expr>,
    },
    /// An operator between its operands. `sign_at` is the place of the operator.
    Binary {
        sign: BinSign,
        sign_at: u32,
        left: Boxed<Expr>,
        right: Boxed<Expr>,
    },
    /// A choice, as `a ? b : c` (5.1.13). The places are those of `?` and `:`.
    Choice {
        question_at: u32,
        colon_at: u32,
        test: Boxed<Expr>,
        yes: Boxed<Expr>,
        no: Boxed<Expr>,
    },
}
