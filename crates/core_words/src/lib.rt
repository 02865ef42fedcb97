//! Numbers of a width: the values of the operators, the fields of an instruction word, and words as bytes.
//!
//! One definition for each operator serves texts, nodes and instructions alike. The functions compute some of them.
#![tactic(auto)]

mod bytes;
mod fields;

pub use bytes::{put_le, word_le};
pub use fields::{bits, mask_of, sext, wrap_add};
