//! The fetch unit with an instruction cache of direct-mapped lines, as a plug-in (`Icache`).
//!
//! Its equations and its law are those of `cache_law`, and its circuit is that of `cache_nets`. The first call makes the registers and
//! the two arrays, of tags and of words; the second reads them, and drives them, the command on the instruction bus, and the
//! inputs of Predict.
#![tactic(auto)]

mod drive;
mod find;
mod late;
mod logs;
mod make;
mod offer;
mod plugin;
mod predict;
mod read;
mod whole;

ghost use Rattle.plug_icache.specs.Builds.{IcachePartsKeepLines, IcachePartsMeetLaws};
ghost use Rattle.plug_icache.specs.Powers.{IcacheSizesArePowers};

pub use plugin::Icache;

/// Each part whose trees have the equations, whatever stands outside, meets the laws of a part with a latency of
/// lines + 4 words + 12 + (4 words + 4) w cycles, and keeps the law of its cache in all its runs: it reads nothing again that it
/// holds, and offers what it holds without a gap. The sizes of an entry without a fault are powers of two (`sizes`). This does nothing:
/// its contract is the laws.
pub fn icache_parts_meet_their_laws()
    ensures laws { IcachePartsMeetLaws }
    ensures cache { IcachePartsKeepLines }
    ensures sizes { IcacheSizesArePowers }
{}
