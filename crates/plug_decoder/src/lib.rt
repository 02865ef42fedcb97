//! The decoder as a plug-in: its circuit for any claims and their owners, the law of its values, and the calls in which it
//! builds.
//!
//! No two claims share a word, so each output is the "or" of one number for each claim, without a chain.
#![tactic(auto)]

mod circuit;
mod law;
mod nets;
mod plugin;

pub use circuit::{Decoded, decoder};
pub use law::{
    decoder_is_right, decoder_keeps_its_law, decoder_parts_meet_their_laws,
    lawful_claims_are_decoded,
};
pub use plugin::Decoder;
