//! What a tree of the Verilog subset means: when it is sound, and what its cycles and runs are.
//!
//! Soundness is nine rules. The refusals of eight are lists in the order of the text, all of which are empty for a
//! sound tree; the ninth, that no wire depends on itself, is a relation, with its first place.
//! Cycles are defined on the module without its places (`specs/Plain`), by following names.
#![tactic(auto)]

mod checked;
mod class;
mod refusal;

pub use checked::Checked;
pub use class::Class;
pub use refusal::MeanRefusal;
