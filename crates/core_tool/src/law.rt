//! Laws of the answers of a call. Their functions do nothing, and what they are lent says no more than what the boxes are made of:
//! the contracts are the laws, each of all calls with such boxes.

ghost use Rattle.std.specs.Prelude.{◌≡◌, ◌⊎◌, ℕ, List};
ghost use Rattle.core_sim.specs.declared.ended.Ended.{Ended};
ghost use Rattle.core_host.specs.Outside.{Appends, IsCut};
ghost use Rattle.core_tool.specs.Call.{ForEachCall, WriteFailed};
ghost use Rattle.core_tool.specs.Boxes.{AreUntouched, TriesRules};
ghost use Rattle.core_tool.specs.Texts.{IsRunTextFor, MayBeText};
ghost use Rattle.core_tool.specs.Answers.{AreAnswers, AsksForText, HasNoText, IsAnswered, IsNoted, IsTextCut, IsWriteFault, MustBeDone, MustRun};

use crate::Status;
use plug_api::Plugin;

/// Each call ends with a status, and what that says has happened: the answers leave no case out.
pub fn every_call_ends(_plugs: &Vec<Box<dyn Plugin>>)
    ensures { ForEachCall ⟦<dyn Plugin as Plugin>⟧ (λ seen. (result : Status) → AreAnswers result seen → IsAnswered result seen) }
{}

/// Where the configuration is held and keeps the rules, no fault of the outside came and a text is asked for, it is written, want of
/// memory aside; and a run comes to its end where its image is held and fits.
pub fn calls_are_complete(_plugs: &Vec<Box<dyn Plugin>>)
    ensures texts { ForEachCall ⟦<dyn Plugin as Plugin>⟧ (λ seen. (result : Status) → AreAnswers result seen → MustBeDone seen → ¬ (WriteFailed seen)
        → (result ≡ Status.Done) ⊎ (result ≡ Status.NoMemory)) }
    ensures runs { ForEachCall ⟦<dyn Plugin as Plugin>⟧ (λ seen. (result : Status) → AreAnswers result seen → MustRun seen → ¬ (WriteFailed seen)
        → (result ≡ Status.Done) ⊎ (result ≡ Status.CyclesEnded) ⊎ (result ≡ Status.Stopped) ⊎ (result ≡ Status.NoMemory)) }
{}

/// A command that tries no rule leaves all boxes as they were.
pub fn boxes_stay(_plugs: &Vec<Box<dyn Plugin>>)
    ensures { ForEachCall ⟦<dyn Plugin as Plugin>⟧ (λ seen. (result : Status) → AreAnswers result seen → ¬ (TriesRules seen.call.form) → AreUntouched seen.call.boxes) }
{}

/// After a failed push Main has nothing, a proper prefix of what was to come, or, where only the line was cut off, the text of a run.
pub fn faults_leave_prefixes(_plugs: &Vec<Box<dyn Plugin>>)
    ensures { ForEachCall ⟦<dyn Plugin as Plugin>⟧ (λ seen. IsWriteFault seen → HasNoText seen
        ⊎ ((text : List ℕ) × MayBeText seen.call text × IsCut seen.old.main text seen.new.main)
        ⊎ ((ended : Ended) × (text : List ℕ) × IsRunTextFor seen.call.form seen.call ended text × Appends seen.old.main text seen.new.main)) }
{}

/// Where a text that is no run's is written, or a text is cut off, nothing is pushed on Notes.
pub fn texts_leave_notes(_plugs: &Vec<Box<dyn Plugin>>)
    ensures done { ForEachCall ⟦<dyn Plugin as Plugin>⟧ (λ seen. (result : Status) → AreAnswers result seen → AsksForText seen.call.form → result ≡ Status.Done
        → seen.new.notes ≡ seen.old.notes) }
    ensures cut { ForEachCall ⟦<dyn Plugin as Plugin>⟧ (λ seen. IsNoted IsTextCut seen → seen.new.notes ≡ seen.old.notes) }
{}
