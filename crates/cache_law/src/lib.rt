//! The fetch with a cache of direct-mapped lines by equations for each cycle, and its laws: it keeps the law of Fetch, reads
//! nothing again that it holds, and offers what it holds without a gap.
#![tactic(auto)]

ghost use Rattle.cache_law.specs.Law.{CacheKeepsLaw, CacheKeepsLines, CellsAreLines};
ghost use Rattle.cache_law.specs.Runs.{CacheHasRuns};

/// A part whose registers, commands and items are the equations keeps the law of Fetch at lines + 4 words + 12 + (4 words + 4) w
/// cycles on a bus that answers within w, and the law of its cache, for all numbers of lines and of words in a line. Its arrays
/// may hold tags and words as numbers. This does nothing: its contract is the laws.
pub fn cache_keeps_its_laws()
    ensures law { CacheKeepsLaw }
    ensures cache { CacheKeepsLines }
    ensures cells { CellsAreLines }
{}

/// The equations have a run for all sizes, each memory by cycle, and whatever is taken, redirected and fenced, on a bus that takes a
/// command at once and answers it in the next cycle. This does nothing: its contract is the law.
pub fn cache_has_runs()
    ensures runs { CacheHasRuns }
{}
