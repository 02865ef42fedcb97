ghost use Rattle.std.specs.Prelude.{◌≡◌, ◌<◌, ◌^◌, length, IfOk};
ghost use Rattle.std.specs.Bool.{Decides};
ghost use Rattle.std.specs.List.{Contains};
ghost use Rattle.service_reg.specs.Services.{LeadsTo, StandsOn};
ghost use Rattle.service_reg.specs.Search.{IsFirstLoop, IsFurther, Reaches, Shares};

use crate::offer::has;
use crate::{Service, ServiceUse};
use std::alloc::{AllocError, Global};

/// Whether two lists have a service in common.
fn shares(wanted: &Vec<Service>, offered: &Vec<Service>) -> bool
    ensures { Decides result (Shares wanted.now.items offered.now.items) }
{
    for k in 0..wanted.len() {
        if has(offered, wanted[k]) {
            return true;
        }
    }
    false
}

/// Whether entry `x` stands directly on entry `y`, which offers a service that `x` needs or uses.
pub fn stands_on(specs: &[ServiceUse], x: usize, y: usize) -> bool
    requires x { x < length specs.now }
    requires y { y < length specs.now }
    ensures { Decides result (StandsOn specs.now x y) }
{
    let offered = specs[y].offers.items();
    shares(specs[x].needs.items(), offered) || shares(specs[x].uses.items(), offered)
}

/// Whether the entry is in the list.
pub fn is_among(entries: &[u32], entry: usize) -> bool
    ensures { Decides result (Contains entries.now entry) }
{
    for k in 0..entries.len() {
        if entries[k] as usize == entry {
            return true;
        }
    }
    false
}

/// Whether `x` or an entry of the list stands directly on `y`.
fn reaches(specs: &[ServiceUse], found: &[u32], x: usize, y: usize) -> bool
    requires x { x < length specs.now }
    requires y { y < length specs.now }
    ensures { Decides result (Reaches specs.now found.now x y) }
{
    if stands_on(specs, x, y) {
        return true;
    }
    for z in 0..specs.len() {
        if is_among(found, z) && stands_on(specs, z, y) {
            return true;
        }
    }
    false
}

/// The first entry that is not in the list, though `x` or one of the list stands directly on it.
fn further(specs: &[ServiceUse], found: &[u32], x: usize) -> Option<u32>
    requires x { x < length specs.now }
    requires few { length specs.now < 2 ^ 32 }
    ensures { IsFurther specs.now found.now x result }
{
    for y in 0..specs.len() {
        if !is_among(found, y) && reaches(specs, found, x, y) {
            return Some(y as u32);
        }
    }
    None
}

/// Whether an entry stands on itself. It gathers all that the entry stands on.
fn stands_on_itself(alloc: Global, specs: &[ServiceUse], x: usize) -> Result<bool, AllocError>
    requires x { x < length specs.now }
    requires few { length specs.now < 2 ^ 32 }
    ensures { IfOk result (λ b. Decides b (LeadsTo specs.now x x)) }
{
    let mut found = Vec::new(alloc);
    while let Some(y) = further(specs, found.as_slice(), x) {
        found.push(y)?;
    }
    Ok(is_among(found.as_slice(), x))
}

/// The first entry that stands on itself.
pub fn first_loop(alloc: Global, specs: &[ServiceUse]) -> Result<Option<u32>, AllocError>
    requires { length specs.now < 2 ^ 32 }
    ensures { IfOk result (λ o. IsFirstLoop specs.now o) }
{
    for x in 0..specs.len() {
        if stands_on_itself(alloc, specs, x)? {
            return Ok(Some(x as u32));
        }
    }
    Ok(None)
}
