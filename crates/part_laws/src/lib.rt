//! Parts that meet their laws in all their runs keep them in each run of the whole, which then follows the machine.
//!
//! The crate holds definitions and laws alone. Its laws speak of no module and no text: a run is numbers for all things of all
//! parts, of which each part's own are as it drives them. Definitions beside them say what a run of a module out of reset is.
#![tactic(auto)]

ghost use Rattle.part_laws.specs.Follow.{JoinedFollows, LawsOfRun};

/// The law of joined parts: what their laws fix for all runs can be chosen once, before any run; and in each run of the whole,
/// over any memory, the parts then keep the laws that the theorem of the pipeline asks for. This does nothing: its contract
/// is the law.
pub fn laws_of_run()
    ensures laws { LawsOfRun }
{}

/// The theorem over runs of joined parts: each run that takes the pipeline's steps follows the machine and has what the theorem
/// of the pipeline claims besides, as far as both buses are honest, over any memory. This does nothing: its contract is
/// the law.
pub fn joined_follows()
    ensures follows { JoinedFollows }
{}
