ghost use Rattle.std.specs.Prelude.{◌≡◌, ◌<◌, ◌^◌, length, IfSome, None, Some};
ghost use Rattle.stage_map.specs.declared.config.Stage.{Stage};
ghost use Rattle.stage_map.specs.Stages.{IsFirstOf, IsPlaceFault, IsUseFault, LacksStage, PlacesThere};
ghost use Rattle.stage_map.specs.Search.{IsFirstAbsence};

use crate::search::{keep_first, lacks_stage, use_at};
use crate::{PlugUse, Stage};

/// A stage that is lacking: that of the commit, or one that this entry names.
#[derive(Clone, Copy)]
pub struct Absence {
    pub plug: Option<u32>,
    pub stage: Stage,
}

/// The stage of a place, where it is lacking.
fn lacking(stages: u32, place: Option<Stage>) -> Option<Stage>
    ensures some { IfSome result (λ s. (place ≡ Some s) × LacksStage stages s) }
    ensures none { result ≡ None → (s : Stage) → place ≡ Some s → LacksStage stages s → ⊥ }
{
    match place {
        Some(stage) => {
            if lacks_stage(stages, stage) {
                Some(stage)
            } else {
                None
            }
        }
        None => None,
    }
}

/// The first entry whose place is a stage that is lacking.
fn absent_place(stages: u32, places: &Vec<Option<Stage>>) -> Option<Absence>
    requires few { length places.now.items < 2 ^ 32 }
    ensures first { IfSome result (λ a. IfSome a.plug (λ e. IsPlaceFault stages places.now.items e a.stage × PlacesThere stages places.now.items e)) }
    ensures entry { IfSome result (λ a. a.plug ≡ None → ⊥) }
    ensures none { result ≡ None → PlacesThere stages places.now.items (length places.now.items) }
{
    for e in 0..places.len() {
        if let Some(stage) = lacking(stages, places[e]) {
            return Some(Absence {
                plug: Some(e as u32),
                stage,
            });
        }
    }
    None
}

/// The first use at a stage that is lacking.
fn absent_use(stages: u32, uses: &[PlugUse]) -> Option<usize>
    ensures { IsFirstOf uses.now (IsUseFault stages uses.now) (length uses.now) result }
{
    let mut best = None;
    for k in 0..uses.len() {
        let lacks = lacks_stage(stages, use_at(uses, k).at.at);
        best = keep_first(uses, best, k, lacks);
    }
    best
}

/// The first stage that is lacking: the commit's, else a place's, else a use's.
pub fn first_absence(
    stages: u32,
    uses: &[PlugUse],
    places: &Vec<Option<Stage>>,
    commit: Stage,
) -> Option<Absence>
    requires few { length places.now.items < 2 ^ 32 }
    ensures { IsFirstAbsence stages uses.now places.now.items commit result }
{
    if lacks_stage(stages, commit) {
        return Some(Absence {
            plug: None,
            stage: commit,
        });
    }
    if let Some(absence) = absent_place(stages, places) {
        return Some(absence);
    }
    let at = absent_use(stages, uses)?;
    let used = use_at(uses, at);
    Some(Absence {
        plug: Some(used.entry),
        stage: used.at.at,
    })
}
