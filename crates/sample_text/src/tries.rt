ghost use Rattle.std.specs.Prelude.{◌≡◌, ◌≤◌, IsTrue, length};
ghost use Rattle.hw_module.specs.Checked.{IsChecked};
ghost use Rattle.module_netlist.specs.Written.{thing_count};
ghost use Rattle.hw_cycle.specs.Inputs.{AreWithin};
ghost use Rattle.sample_text.specs.Poked.{HasCells, IsOf};

use crate::few::small;
use crate::many::large;
use crate::sample::Sample;
use core_host::{MemHost, Port, TextHost};
use core_words::mask_of;
use hw_cycle::Cycle;
use std::alloc::{AllocError, Global};
use verilog_load::load_text;
use verilog_sim::TreeSim;
use verilog_write::{WriteRefusal, module_text, write_module};

/// The inputs of a core, in the order of the ports, are below these.
const LIMITS: [u64; 13] = [2, 2, 2, 2, 2, 4294967296, 2, 2, 2, 4294967296, 2, 2, 2];

/// Whether each input is within its port's width.
#[tactic(auto, using(crate::proofs::Limits::within_of))]
fn are_within(ins: &[u64]) -> bool
    requires { length ins.now ≡ 13 }
    ensures { IsTrue result → AreWithin ins.now }
{
    for k in 0..13 {
        if ins[k] >= LIMITS[k] {
            return false;
        }
    }
    true
}

/// The next number of a linear congruence.
fn next_number(number: u64) -> u64 {
    number
        .wrapping_mul(6_364_136_223_846_793_005)
        .wrapping_add(1_442_695_040_888_963_407)
}

/// Inputs made of a number: bits of it, and words of two others behind it.
fn inputs(alloc: Global, number: u64, reset: bool) -> Result<Vec<u64>, AllocError> {
    let word = next_number(number) >> 32;
    let data = next_number(word) >> 32;
    let bits = number >> 40;
    let reset = if reset { 1 } else { 0 };
    let ins = vec![in alloc;
        0,
        reset,
        bits & 1,
        (bits >> 1) & 1,
        (bits >> 2) & 1,
        word,
        (bits >> 3) & 1,
        (bits >> 4) & 1,
        (bits >> 5) & 1,
        data,
        (bits >> 6) & 1,
        (bits >> 7) & 1,
        (bits >> 8) & 1,
    ]?;
    Ok(ins)
}

/// Steps a module and the simulator of its text, and answers whether their outputs are equal.
fn step_both(
    sample: &Sample,
    cycle: &mut Cycle,
    sim: &mut TreeSim,
    ins: &Vec<u64>,
    ours: &mut Vec<u64>,
    theirs: &mut Vec<u64>,
) -> bool
    requires checked { IsChecked sample.now.circuit sample.now.pool }
    requires made { IsOf cycle.old sample.now.circuit sample.now.pool }
    ensures made { IsOf cycle.new sample.now.circuit sample.now.pool }
{
    if ins.len() != 13 || ours.len() != 17 || !are_within(ins.as_slice()) {
        return false;
    }
    if sim.flat.ins != 13 || sim.flat.outs.len() != theirs.len() {
        return false;
    }
    cycle.step(&sample.circuit, &sample.pool, ins, ours);
    sim.step(ins.as_slice(), theirs);
    ours.as_slice() == theirs.as_slice()
}

/// Sets a register of both to the same number.
#[tactic(auto, using(crate::proofs::Pokes::reg_poked, crate::proofs::Pokes::reg_cells, crate::proofs::Pokes::masked_below))]
fn poke_reg(sample: &Sample, cycle: &mut Cycle, sim: &mut TreeSim, reg: u32, number: u64) -> bool
    requires made { IsOf cycle.old sample.now.circuit sample.now.pool }
    requires cells { HasCells cycle.old sample.now.circuit }
    ensures made { IsOf cycle.new sample.now.circuit sample.now.pool }
    ensures cells { HasCells cycle.new sample.now.circuit }
{
    let rows = sample.circuit.regs();
    if reg as usize >= rows.len() || reg as usize >= sim.flat.regs.len() {
        return false;
    }
    let value = number & mask_of(rows[reg as usize].width);
    cycle.poke_reg(reg, value);
    sim.poke_reg(reg, value);
    true
}

/// Sets a cell of an array of both to the same number.
#[tactic(auto, using(crate::proofs::Pokes::cell_poked, crate::proofs::Pokes::cell_cells, crate::proofs::Pokes::masked_below))]
fn poke_cell(
    sample: &Sample,
    cycle: &mut Cycle,
    sim: &mut TreeSim,
    array: u32,
    cell: u32,
    number: u64,
) -> bool
    requires made { IsOf cycle.old sample.now.circuit sample.now.pool }
    requires cells { HasCells cycle.old sample.now.circuit }
    ensures made { IsOf cycle.new sample.now.circuit sample.now.pool }
    ensures cells { HasCells cycle.new sample.now.circuit }
{
    let rows = sample.circuit.arrays();
    if array as usize >= rows.len() || array as usize >= sim.arrays.len() {
        return false;
    }
    let row = rows[array as usize];
    let place = sim.arrays[array as usize];
    if cell >= 1 << row.bits || cell >= place.size {
        return false;
    }
    if place.base as usize + cell as usize >= sim.flat.cells.len() {
        return false;
    }
    let value = number & mask_of(row.width);
    cycle.poke_cell(array, cell, value);
    sim.poke_cell(array, cell, value);
    true
}

/// Sets the registers and cells of the small module, of both, to numbers made of a number.
fn poke_all(sample: &Sample, cycle: &mut Cycle, sim: &mut TreeSim, number: u64) -> bool
    requires made { IsOf cycle.old sample.now.circuit sample.now.pool }
    requires cells { HasCells cycle.old sample.now.circuit }
    ensures made { IsOf cycle.new sample.now.circuit sample.now.pool }
    ensures cells { HasCells cycle.new sample.now.circuit }
{
    let mut last = number;
    let mut all = true;
    for reg in 0..3 {
        last = next_number(last);
        all &= poke_reg(sample, cycle, sim, reg, last >> 32);
    }
    for cell in 0..16 {
        last = next_number(last);
        all &= poke_cell(sample, cycle, sim, 0, cell, last >> 32);
    }
    all
}

/// Sets the registers and cells of both, where the number is above 0.
fn prepare(sample: &Sample, cycle: &mut Cycle, sim: &mut TreeSim, number: u64) -> bool
    requires made { IsOf cycle.old sample.now.circuit sample.now.pool }
    requires cells { HasCells cycle.old sample.now.circuit }
    ensures { IsOf cycle.new sample.now.circuit sample.now.pool }
{
    if number == 0 {
        return true;
    }
    poke_all(sample, cycle, sim, number)
}

/// Whether a module and the simulator of its text have equal outputs in 300 cycles, from registers and cells that
/// are 0 or made of a number. `reset` is 1 in two of the cycles.
#[tactic(auto, using(crate::proofs::Pokes::new_cells))]
fn agree(alloc: Global, sample: &Sample, sim: &mut TreeSim, start: u64) -> Result<bool, AllocError>
    requires { IsChecked sample.now.circuit sample.now.pool }
{
    let mut cycle = Cycle::new(alloc, &sample.circuit, &sample.pool)?;
    let mut ours = vec![in alloc; 0; 17]?;
    let mut theirs = vec![in alloc; 0; sim.flat.outs.len()]?;
    if !prepare(sample, &mut cycle, sim, start) {
        return Ok(false);
    }
    let mut number = 1;
    for k in 0..300 {
        number = next_number(number);
        let ins = inputs(alloc, number, k % 220 == 0)?;
        if !step_both(sample, &mut cycle, sim, &ins, &mut ours, &mut theirs) {
            return Ok(false);
        }
    }
    Ok(true)
}

/// Whether the small module and the simulator of its text have equal outputs, from each of three starts.
fn steps_as_its_text(alloc: Global) -> anyhow::Result<bool> {
    let sample = small(alloc)?;
    let mut host = TextHost::with_room(alloc, 65_536)?;
    write_module(alloc, &sample.circuit, &sample.pool, &mut host)?;
    let checked = load_text(alloc, host.pushed(Port::Main).as_slice())?;
    let mut all = true;
    for start in [0, 1, 2] {
        let mut sim = TreeSim::new(alloc, &checked)?;
        all &= agree(alloc, &sample, &mut sim, start)?;
    }
    Ok(all)
}

/// Whether a port that takes 100 bytes a call, and fails at a call, holds then a proper part of the text of the module.
fn is_cut(alloc: Global, sample: &Sample, text: &[u8], fails: u32) -> Result<bool, AllocError>
    requires checked { IsChecked sample.now.circuit sample.now.pool }
    requires few { thing_count sample.now.circuit sample.now.pool ≤ 65535 }
{
    let calls = vec![in alloc; fails]?;
    let mut host = MemHost::new(alloc, Vec::new(alloc), calls, 100, 65_536)?;
    let written = write_module(alloc, &sample.circuit, &sample.pool, &mut host);
    let taken = host.pushed(Port::Main).as_slice();
    Ok(
        written == Err(WriteRefusal::WriteFault)
            && taken.len() / 100 + 1 == fails as usize
            && taken.len() < text.len()
            && text.starts_with(taken),
    )
}

/// At how many calls a port that fails holds a proper part of the text of the small module, up to the first at which it does not.
fn cuts(alloc: Global) -> anyhow::Result<u32> {
    let sample = small(alloc)?;
    let text = module_text(alloc, &sample.circuit, &sample.pool)?;
    for calls in 0..1_000 {
        if calls as usize * 100 >= text.len()
            || !is_cut(alloc, &sample, text.as_slice(), calls + 1)?
        {
            return Ok(calls);
        }
    }
    Ok(1_000)
}

/// How many registers and nodes the large module has, and how many registers the simulator of its text.
fn sizes(alloc: Global) -> anyhow::Result<(usize, u32, usize)> {
    let sample = large(alloc)?;
    let text = module_text(alloc, &sample.circuit, &sample.pool)?;
    let checked = load_text(alloc, text.as_slice())?;
    let sim = TreeSim::new(alloc, &checked)?;
    Ok((
        sample.circuit.regs().len(),
        sample.pool.live(),
        sim.flat.regs.len(),
    ))
}

/// Tries both modules, and prints a line for each thing that is tried.
pub(crate) fn try_all(rt: &impl Print, alloc: Global) -> anyhow::Result<()> {
    let equal = steps_as_its_text(alloc)?;
    println!(rt; "small: 300 cycles from each of 3 starts are those of its text: {equal}")?;
    let calls = cuts(alloc)?;
    println!(rt; "small: a port that fails holds a proper part at each of {calls} calls")?;
    let (regs, nodes, simulated) = sizes(alloc)?;
    println!(rt;
        "large: {regs} registers and {nodes} nodes, and {simulated} registers in its text"
    )?;
    Ok(())
}
