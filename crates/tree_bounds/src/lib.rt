//! What each tree of a text meets, whatever its rules of soundness say: literals that fit their sizes, joins with
//! a part, and no more ports, items and expressions than the text has bytes.
#![tactic(auto)]

mod law;

pub use law::text_trees_are_bounded;
