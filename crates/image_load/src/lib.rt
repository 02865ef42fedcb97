//! Images of memory: bytes that are put into a memory, and why they are not.
#![tactic(auto)]

mod raw;
mod refusal;

pub use raw::load_raw;
pub use refusal::{ImageRefusal, MOST_BYTES};
