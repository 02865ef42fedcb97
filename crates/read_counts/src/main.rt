//! The program: runs images on generated cores over buses that answer at once, and prints a line for each run: how many instruction
//! reads the bus accepted, of which addresses, and how many events and cycles there were.
#![tactic(auto)]

mod bench;
mod counts;
mod rows;

use crate::bench::Bench;
use crate::counts::{Counts, Span};
use crate::rows::{ROWS, Row};
use plug_alu::Alu;
use plug_api::Plugin;
use plug_branch::Branch;
use plug_csr::Csr;
use plug_dbus::Dbus;
use plug_decoder::Decoder;
use plug_fencei::Fencei;
use plug_fetch::Fetch;
use plug_hazard::Hazard;
use plug_icache::Icache;
use plug_muldiv::Muldiv;
use plug_predict::Predict;
use plug_regfile::RegFile;
use plug_shift::ShiftBarrel;
use std::alloc::Global;

fn main(rt: HostRuntime) -> anyhow::Result<()> {
    let alloc = rt.alloc();
    let mut plugs: Vec<Box<dyn Plugin>> = Vec::new(alloc);
    plugs.push(Box::new(alloc, Fetch::new(alloc)?)?)?;
    plugs.push(Box::new(alloc, Icache::new(alloc)?)?)?;
    plugs.push(Box::new(alloc, Predict::new(alloc)?)?)?;
    plugs.push(Box::new(alloc, Fencei::new(alloc)?)?)?;
    plugs.push(Box::new(alloc, Decoder::new(alloc)?)?)?;
    plugs.push(Box::new(alloc, RegFile::new(alloc)?)?)?;
    plugs.push(Box::new(alloc, Hazard::new(alloc)?)?)?;
    plugs.push(Box::new(alloc, Alu::new(alloc)?)?)?;
    plugs.push(Box::new(alloc, ShiftBarrel::new(alloc)?)?)?;
    plugs.push(Box::new(alloc, Muldiv::new(alloc)?)?)?;
    plugs.push(Box::new(alloc, Branch::new(alloc)?)?)?;
    plugs.push(Box::new(alloc, Dbus::new(alloc)?)?)?;
    plugs.push(Box::new(alloc, Csr::new(alloc)?)?)?;
    for row in ROWS {
        line(&rt, alloc, row, &mut plugs)?;
    }
    Ok(())
}

/// Prints the line of a row.
fn line(
    rt: &impl Print,
    alloc: Global,
    row: &Row,
    plugs: &mut Vec<Box<dyn Plugin>>,
) -> anyhow::Result<()> {
    let mut bench = Bench::new(alloc, row, plugs)?;
    let counts = Counts::of(&mut bench);
    print_counts(rt, row.name, &counts)
}

/// Prints what was counted in a run.
fn print_counts(rt: &impl Print, name: &str, counts: &Counts) -> anyhow::Result<()> {
    let Span {
        words,
        first,
        last,
        least,
        most,
    } = counts.span();
    println!(rt;
        "{name}: reads={} words={words} from={first:08x} to={last:08x} times={least}..{most} events={} cycles={}",
        counts.reads, counts.events, counts.cycles
    )?;
    Ok(())
}
