use crate::{calls, kinds, plans, rules};
use std::test::Fail;

#[test]
fn each_row_is_met(rt: HostRuntime) -> Result<(), Fail> {
    let alloc = rt.alloc();
    assert!(rt; kinds::parameters_are_taken(alloc)? && kinds::specs_are_right(alloc)?);
    assert!(rt; plans::plans_are_right(alloc)? && plans::claims_are_right(alloc)?);
    assert!(rt; rules::rules_are_told(alloc)? && rules::refusals_leave_what_was_taken(alloc)?);
    assert!(rt; calls::calls_are_right(alloc)?);
    Ok(())
}
