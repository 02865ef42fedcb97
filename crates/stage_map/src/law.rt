ghost use Rattle.std.specs.Prelude.{◌≡◌, List, Option};
ghost use Rattle.stage_map.specs.declared.config.Stage.{Stage};
ghost use Rattle.stage_map.specs.declared.keys.StageRefusal.{StageRefusal};
ghost use Rattle.stage_map.specs.Stages.{HasNoStageFault, IsFirstStageFault, StageMapValue};

/// Where there is a first fault, stages and keys are not without fault. This does nothing: its contract is the law.
pub fn faults_exclude()
    ensures { (m : StageMapValue) (places : List (Option Stage)) (commit : Stage) (r : StageRefusal)
        → HasNoStageFault m places commit → IsFirstStageFault m places commit r → ⊥ }
{}

/// There is at most one first fault. This does nothing: its contract is the law.
pub fn one_first_fault()
    ensures { (m : StageMapValue) (places : List (Option Stage)) (commit : Stage) (r s : StageRefusal)
        → IsFirstStageFault m places commit r → IsFirstStageFault m places commit s → r ≡ s }
{}
