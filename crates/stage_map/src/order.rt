ghost use Rattle.std.specs.Prelude.{◌≡◌, ◌<◌, length, IfSome};
ghost use Rattle.std.specs.Bool.{Decides};
ghost use Rattle.stage_map.specs.Stages.{HasOrderFault, IsEarly, IsFirstOf, IsOrderFault, IsWrite, IsWriter};
ghost use Rattle.stage_map.specs.Search.{IsFirstMisread};

use crate::PlugUse;
use crate::search::{keep_first, rank, same_name, use_at};
use core_host::Name;

/// The place of a read that is too early, and that of the key's writer.
#[derive(Clone, Copy)]
pub struct Misread {
    pub at: usize,
    pub from: Option<usize>,
}

/// Whether the use writes the key of that name.
fn is_write(uses: &[PlugUse], k: usize, name: &Name) -> bool
    requires { k < length uses.now }
    ensures { Decides result (IsWrite uses.now name.now k) }
{
    let used = use_at(uses, k);
    used.at.writes && same_name(&used.at.key.name, name)
}

/// The writer of the key of that name.
fn writer_of(uses: &[PlugUse], name: &Name) -> Option<usize>
    ensures { IsWriter uses.now name.now result }
{
    let mut best = None;
    for k in 0..uses.len() {
        let writes = is_write(uses, k, name);
        best = keep_first(uses, best, k, writes);
    }
    best
}

/// Whether the use is at a stage before its writer's, or has no writer.
fn is_early(uses: &[PlugUse], k: usize, writer: Option<usize>) -> bool
    requires here { k < length uses.now }
    requires there { IfSome writer (λ w. w < length uses.now) }
    ensures { Decides result (IsEarly uses.now k writer) }
{
    match writer {
        Some(w) => rank(use_at(uses, k).at.at) < rank(use_at(uses, w).at.at),
        None => true,
    }
}

/// Whether the use reads a key too early.
fn is_misread(uses: &[PlugUse], k: usize) -> bool
    requires { k < length uses.now }
    ensures { Decides result (HasOrderFault uses.now k) }
{
    let used = use_at(uses, k);
    if used.at.writes {
        return false;
    }
    let writer = writer_of(uses, &used.at.key.name);
    is_early(uses, k, writer)
}

/// The first use that reads a key too early.
fn misread_place(uses: &[PlugUse]) -> Option<usize>
    ensures { IsFirstOf uses.now (HasOrderFault uses.now) (length uses.now) result }
{
    let mut best = None;
    for k in 0..uses.len() {
        let early = is_misread(uses, k);
        best = keep_first(uses, best, k, early);
    }
    best
}

/// The first use that reads a key too early, with the key's writer.
#[tactic(auto, using(crate::proofs::Writers::misread_with))]
pub fn first_misread(uses: &[PlugUse]) -> Option<Misread>
    ensures { IsFirstMisread uses.now result }
{
    let at = misread_place(uses)?;
    let from = writer_of(uses, &use_at(uses, at).at.key.name);
    Some(Misread { at, from })
}
