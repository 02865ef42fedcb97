//! Joined cores whose fetch keeps the law of a cache: no word that the cache holds is read again, and what it holds comes without a gap.
//!
//! The crate holds definitions and laws alone, and names no kind of plug-in.
#![tactic(auto)]

ghost use Rattle.cached_law.specs.Cached.{CachedModules, CachedRuns, CachedTrees};

/// The law of joined cores with a cached fetch. Where the part that offers Fetch keeps the law of a cache of so many lines of so many
/// words in its own runs, the core keeps it in each run on honest buses, over any memory: what Predict answers is chosen once, before
/// any run. So it is in runs of the joined parts, in runs of a module out of reset, and in runs of each text that means the
/// module. This does nothing: its contract is the laws.
pub fn cached_cores()
    ensures runs { CachedRuns }
    ensures modules { CachedModules }
    ensures trees { CachedTrees }
{}
