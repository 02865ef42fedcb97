ghost use Rattle.std.specs.Prelude.{◌≡◌, ℕ, ◌<◌, List, Option, length, IfSome};
ghost use Rattle.std.specs.Bool.{Decides};
ghost use Rattle.stage_map.specs.Stages.{LacksStage, rank, use_at};
ghost use Rattle.stage_map.specs.Search.{kept};

use crate::{PlugUse, Stage};
use core_host::Name;

/// The place of a stage in the pipeline.
pub fn rank(stage: Stage) -> u32
    ensures { result ≡ rank stage }
{
    match stage {
        Stage::Decode => 0,
        Stage::Execute => 1,
        Stage::Memory => 2,
        Stage::Writeback => 3,
    }
}

/// Whether a pipeline of so many stages lacks this one.
pub fn lacks_stage(stages: u32, stage: Stage) -> bool
    ensures { Decides result (LacksStage stages stage) }
{
    stages <= rank(stage)
}

/// Whether two names have the same bytes.
pub fn same_name(a: &Name, b: &Name) -> bool
    ensures { Decides result (a.now ≡ b.now) }
{
    a.is(b.text().as_str())
}

/// The use at this place.
pub fn use_at(uses: &[PlugUse], k: usize) -> &PlugUse
    requires { k < length uses.now }
    ensures { result.now ≡ use_at uses.now k }
{
    &uses[k]
}

/// Of the use found so far and that at `k`, a later place, the first that holds.
pub fn keep_first(uses: &[PlugUse], best: Option<usize>, k: usize, holds: bool) -> Option<usize>
    requires here { k < length uses.now }
    requires found { IfSome best (λ b. b < length uses.now) }
    ensures { result ≡ kept uses.now best k holds }
{
    if !holds {
        return best;
    }
    match best {
        Some(b) => {
            if use_at(uses, b).entry <= use_at(uses, k).entry {
                Some(b)
            } else {
                Some(k)
            }
        }
        None => Some(k),
    }
}
