//! What a generated core claims of the plug-in that it fetches by: where its part keeps the law of a cache, so does the core.
//!
//! The crate holds definitions and laws alone, and names no kind of plug-in.
#![tactic(auto)]

mod law;

pub use law::generated_cores_keep_caches;
