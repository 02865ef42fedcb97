use crate::{calls, exits, runs};
use std::test::Fail;

#[test]
fn calls_have_their_ends(rt: HostRuntime) -> Result<(), Fail> {
    assert!(rt; calls::ends_are_right(rt.alloc())?);
    Ok(())
}

#[test]
fn failed_calls_cut_the_output_off(rt: HostRuntime) -> Result<(), Fail> {
    let alloc = rt.alloc();
    assert!(rt; calls::cuts_are_right(alloc)? && exits::cuts_are_right(alloc)?);
    Ok(())
}

#[test]
fn runs_end_by_their_exit(rt: HostRuntime) -> Result<(), Fail> {
    assert!(rt; exits::exits_are_right(rt.alloc())?);
    Ok(())
}

#[test]
fn runs_have_their_events_and_cycles(rt: HostRuntime) -> Result<(), Fail> {
    assert!(rt; runs::runs_are_right(rt.alloc())?);
    Ok(())
}

/// The events are the same with 2 and 3 stages, with a bus that waits and without.
#[test]
fn runs_have_their_events_with_fewer_stages(rt: HostRuntime) -> Result<(), Fail> {
    let alloc = rt.alloc();
    assert!(rt; runs::events_are_right(alloc, "stages = 2", "")?);
    assert!(rt; runs::events_are_right(alloc, "stages = 3", " --wait 2")?);
    Ok(())
}

#[test]
fn rules_are_tried(rt: HostRuntime) -> Result<(), Fail> {
    assert!(rt; runs::rules_are_right(rt.alloc())?);
    Ok(())
}
