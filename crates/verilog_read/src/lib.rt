//! The reader of the Verilog subset: from the bytes of a text to the tree of its module.
//!
//! A text is first cut into tokens, up to the first that is malformed. The tokens are then read from
//! left to right, with one of them ahead. Both take time linear in the length of the text; only
//! expressions are read by recursion, which goes no deeper than they may be, 64.
#![tactic(auto)]

mod cursor;
mod expr;
mod fault;
mod lexer;
mod module;
mod read;
mod refusal;
mod token;

pub use read::read_module;
pub use refusal::{ReadRefusal, UnsupportedForm};
