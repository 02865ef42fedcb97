//! The plug-in that guesses the pc behind an instruction from its pc and its word alone (`Predict`): its circuit, the formula of
//! the guess, and the law that its parts keep.
//!
//! Both targets are added before one is selected, so that the guess is one sum and a choice behind the word.
#![tactic(auto)]

mod circuit;
mod law;
mod nets;
mod params;
mod plugin;
mod styles;

pub use circuit::guess;
pub use law::{predict_parts_guess, predict_parts_meet_their_laws};
pub use plugin::Predict;
pub use styles::Style;
