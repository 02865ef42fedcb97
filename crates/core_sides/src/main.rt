//! The program: steps the module of a core and the text of that core side by side, for some cores, and prints a line for each.
#![tactic(auto)]

mod bus;
mod cores;
mod sides;
mod step;

ghost use Rattle.std.specs.Prelude.{◌<◌, ◌^◌, length};

use crate::cores::Core;
use crate::sides::{Seen, step_core};
use plug_alu::Alu;
use plug_api::Plugin;
use plug_decoder::Decoder;
use plug_fetch::Fetch;
use plug_hazard::Hazard;
use plug_regfile::RegFile;
use std::alloc::Global;

fn main(rt: HostRuntime) -> anyhow::Result<()> {
    let alloc = rt.alloc();
    let mut plugs: Vec<Box<dyn Plugin>> = Vec::new(alloc);
    plugs.push(Box::new(alloc, Fetch::new(alloc)?)?)?;
    plugs.push(Box::new(alloc, Decoder::new(alloc)?)?)?;
    plugs.push(Box::new(alloc, RegFile::new(alloc)?)?)?;
    plugs.push(Box::new(alloc, Hazard::new(alloc)?)?)?;
    plugs.push(Box::new(alloc, Alu::new(alloc)?)?)?;
    report(&rt, alloc, &mut plugs)
}

/// Prints a line for each core.
fn report(rt: &impl Print, alloc: Global, plugs: &mut Vec<Box<dyn Plugin>>) -> anyhow::Result<()>
    requires few { length plugs.old.items < 2 ^ 32 }
{
    for stages in 2..=4 {
        for bypass in [true, false] {
            let core = Core { stages, bypass };
            line(rt, alloc, &core, plugs)?;
        }
    }
    Ok(())
}

/// Prints the line of a core.
fn line(
    rt: &impl Print,
    alloc: Global,
    core: &Core,
    plugs: &mut Vec<Box<dyn Plugin>>,
) -> anyhow::Result<()>
    requires few { length plugs.old.items < 2 ^ 32 }
    ensures few { length plugs.new.items < 2 ^ 32 }
{
    let Seen {
        equal,
        retired,
        trapped,
    } = step_core(alloc, core, plugs)?;
    println!(rt;
        "stages={} bypass={}: {equal} cycles equal, {retired} retired, {trapped} trapped",
        core.stages, core.bypass
    )?;
    Ok(())
}
