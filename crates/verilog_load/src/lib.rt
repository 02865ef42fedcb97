//! From the bytes of a text to a checked tree: the reader and the checker, one behind the other.
#![tactic(auto)]

mod load;

pub use load::{TextRefusal, load_text};

#[cfg(test)]
mod tests;
