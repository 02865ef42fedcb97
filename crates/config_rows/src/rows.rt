use crate::{configs, maps, services};
use std::test::Fail;

#[test]
fn each_row_is_met(rt: HostRuntime) -> Result<(), Fail> {
    let alloc = rt.alloc();
    assert_eq!(rt; configs::first_wrong(alloc)?, None);
    assert!(rt; configs::long_and_broken_are_read(alloc)?);
    assert_eq!(rt; maps::first_wrong(alloc), None);
    assert_eq!(rt; services::first_wrong(alloc), None);
    assert!(rt; maps::copies_are_the_same(alloc)?);
    Ok(())
}
