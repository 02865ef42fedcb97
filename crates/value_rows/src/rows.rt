use crate::{
    buses, circuits, counters, digits, entries, gates, hosts, images, instructions, lines, nets,
    pools, things, words,
};
use std::test::Fail;

#[test]
fn each_row_is_met(rt: HostRuntime) -> Result<(), Fail> {
    let alloc = rt.alloc();
    lines::events_have_their_lines();
    assert!(rt; buses::words_are_right(alloc)? && buses::cycles_are_right(alloc)?);
    assert!(rt; circuits::widths_are_right(alloc) && gates::widths_are_right(alloc));
    assert!(rt; counters::counts_are_right(alloc)?);
    assert!(rt; digits::digits_are_right() && words::values_are_right());
    assert!(rt; entries::entries_are_right(alloc)? && things::undriven_are_named(alloc)?);
    assert!(rt; hosts::real_host_is_right(rt));
    assert!(rt; images::images_are_right(alloc)?);
    assert!(rt; instructions::rows_are_right() && instructions::claims_are_right());
    assert!(rt; nets::values_are_right(alloc)? && pools::limit_is_right(alloc));
    Ok(())
}
