//! Numbers as hexadecimal text.
#![tactic(auto)]

mod digits;

pub use digits::hex_digits;
