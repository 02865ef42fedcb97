//! The circuit of the fetch with a cache, and its equations over numbers (`specs/Machine`).
//!
//! A cycle reads the registers, the tag and the word under the pc that is looked up, and what comes (`Cycle`). It gives the next
//! values of the registers and the writes of both arrays (`cycle_nets`). In each run of the equations the registers and arrays are
//! those of `cache_law` (`runs_are_cells`).
#![tactic(auto)]

mod fills;
mod groups;
mod look;
mod parts;
mod regs;
mod shapes;
mod whole;
mod writes;

ghost use Rattle.cache_nets.specs.Runs.{RunsAreCells};

pub use parts::{cell_of, index_of};
pub use shapes::{Coming, Cycle, Fill, Four, Held, Nexts, Search, Sizes, Write};
pub use whole::cycle_nets;

/// In each run of the equations the registers and arrays follow those of the cached fetch, for 2 ^ l lines of 2 ^ k words. This does
/// nothing: its contract is the law.
pub fn runs_are_cells()
    ensures cells { RunsAreCells }
{}
