//! The tree of one Verilog module, and the grammar that gives a text its tree.
//!
//! The language is a part of Verilog (IEEE 1364-2005) in which a module of registers, arrays and
//! wires is written with one clock and one reset. The types here are what a reader makes and a writer
//! starts from. Which text has which tree is defined in `specs/`: a relation of bytes and trees
//! (`Reads`), with a function beside it that computes the tree. A text has at most one tree.
//!
//! A place is the offset of a byte in the text, counted from 0. Each field `at` is the place of the
//! first token of its form.
#![tactic(auto)]

mod expr;
mod law;
mod token;
mod tree;

pub use expr::{BinSign, Expr, Ident, Lit, Num, Pair};
pub use law::{text_has_one_tree, tree_is_computed};
pub use token::{Token, TokenKind};
pub use tree::{Driver, Item, PortDecl, Stmt, Tree};
