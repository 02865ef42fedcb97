//! Reads the text of a configuration: what each key says, or the first refusal.
#![tactic(auto)]

mod entries;
mod keys;
mod numbers;
mod read;
mod refusal;

pub use read::read_config;
pub use refusal::{ConfigRefusal, KeyPath, Want};
