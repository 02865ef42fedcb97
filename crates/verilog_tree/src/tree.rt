use crate::expr::{Expr, Ident, Lit, Pair};
use core_host::List;

/// What a name is given: `=` or `<=`, whose place is `sign_at`, and an expression.
#[derive(Drop)]
pub struct Driver {
    pub sign_at: u32,
    pub value: Expr,
}

/// A port, declared in the module's head (IEEE 1364-2005, 12.3.4). `at` is the place of `input` or
/// `output`.
#[derive(Drop)]
pub struct PortDecl {
    pub at: u32,
    pub input: bool,
    pub range: Option<Pair>,
    pub name: Ident,
}

/// What is done at a rising edge of the clock (section 9).
#[derive(Drop)]
pub enum Stmt {
    /// A register takes a value, as `r <= a;` (9.2.2).
    Next {
        target: Ident,
        driver: Driver,
    },
    /// A register takes a literal while `reset` is 1, and else a value, as
    /// `if (reset) r <= 8'h00; else r <= a;` (9.4). `first` and `target` are the two names that stand
    /// before `<=`, `first_sign_at` is the place of the first `<=`.
    Reset {
        at: u32,
        first: Ident,
        first_sign_at: u32,
        start: Lit,
        target: Ident,
        driver: Driver,
    },
    /// A cell of an array takes a value where a condition is 1, as `if (e) m[a] <= d;` (9.4).
    /// `paren_at` and `bracket_at` are the places of `(` and `[`.
    Write {
        at: u32,
        paren_at: u32,
        enable: Expr,
        target: Ident,
        bracket_at: u32,
        index: Expr,
        driver: Driver,
    },
}

/// An item of a module (12.1). `at` is the place of its first word.
#[derive(Drop)]
pub enum Item {
    /// A wire, as `wire [7:0] w = a;` or `wire w;` (4.2.1, 6.1.1).
    Wire {
        at: u32,
        range: Option<Pair>,
        name: Ident,
        driver: Option<Driver>,
    },
    /// A register, as `reg [7:0] r;` (4.2.2), or with `cells` an array, as `reg [7:0] m [0:15];` (4.9).
    Reg {
        at: u32,
        range: Option<Pair>,
        name: Ident,
        cells: Option<Pair>,
    },
    /// `assign` of a value to a wire or an output (6.1.2).
    Assign {
        at: u32,
        target: Ident,
        driver: Driver,
    },
    /// `always @(posedge clk)` and a statement (9.9.2, 9.7.2).
    Always {
        at: u32,
        stmt: Stmt,
    },
}

/// A module (12.1). `at` is the place of `module`.
#[derive(Drop)]
pub struct Tree {
    pub at: u32,
    pub name: Ident,
    pub ports: List<PortDecl>,
    pub items: List<Item>,
}
