ghost use Rattle.std.specs.Prelude.{◌≡◌, ℕ, ◌+◌, ◌*◌, ◌<◌, ◌≤◌, ◌^◌, length};
ghost use Rattle.hw_module.specs.Rows.{reg_at, wire_at};
ghost use Rattle.pipe_drive.specs.Rows.{AddsRegs, AddsWires, AreRegs, AreShapes, AreWires, IsMade, chosen_shapes, tail_shapes};

use hw_module::{Module, Owner};

/// Makes a forward wire of the pipeline, of 1 bit, for each of these levels.
pub fn make_wires(m: &mut Module, levels: &[u32])
    requires room { length levels.now ≤ m.old.room }
    ensures made { AreWires m.new (length m.old.wires) levels.now }
    ensures adds { AddsWires m.old m.new (length levels.now) }
{
    match levels {
        [] => {}
        [level, rest @ ..] => {
            m.wire(Owner::Pipe, 1, *level);
            make_wires(m, rest);
        }
    }
}

/// Makes a register of the pipeline for each of these widths and resets.
pub fn make_regs(m: &mut Module, shapes: &[(u32, Option<u64>)])
    requires room { length shapes.now ≤ m.old.room }
    requires shapes { AreShapes shapes.now }
    ensures made { AreRegs m.new (length m.old.regs) shapes.now }
    ensures adds { AddsRegs m.old m.new (length shapes.now) }
{
    match shapes {
        [] => {}
        [shape, rest @ ..] => {
            m.reg(Owner::Pipe, shape.0, shape.1);
            make_regs(m, rest);
        }
    }
}

/// Makes a register of 1 bit for each unit: whether it is the chosen one.
pub fn make_chosen(m: &mut Module, units: u32)
    requires room { units ≤ m.old.room }
    ensures made { AreRegs m.new (length m.old.regs) (chosen_shapes units) }
    ensures adds { AddsRegs m.old m.new units }
{
    if units > 0 {
        m.reg(Owner::Pipe, 1, None);
        make_chosen(m, units - 1);
    }
}

/// Makes the registers of this many places of the tail, three for each.
pub fn make_tail(m: &mut Module, places: u32)
    requires room { 3 * places ≤ m.old.room }
    ensures made { AreRegs m.new (length m.old.regs) (tail_shapes places) }
    ensures adds { AddsRegs m.old m.new (3 * places) }
{
    if places > 0 {
        m.reg(Owner::Pipe, 1, Some(0));
        m.reg(Owner::Pipe, 5, None);
        m.reg(Owner::Pipe, 32, None);
        make_tail(m, places - 1);
    }
}

/// The numbers of the pipeline's things, which follow each other: its first forward wire and its first register, and the numbers behind
/// the last.
#[derive(Clone, Copy, Debug, PartialEq, Eq)]
pub struct Made {
    pub wire: u32,
    pub wire_end: u32,
    pub reg: u32,
    pub reg_end: u32,
}

/// Makes the pipeline's forward wires and registers, with none driven: those of this many units, which are the offers of Exec, and of
/// this many places of the tail.
pub fn make_things(m: &mut Module, reset_pc: u32, units: u32, places: u32) -> Made
    requires room { 23 + units + 3 * places ≤ m.old.room }
    ensures wire { result.wire ≡ length m.old.wires }
    ensures wire_end { result.wire_end ≡ length m.new.wires }
    ensures few_wires { length m.new.wires < 2 ^ 32 }
    ensures reg { result.reg ≡ length m.old.regs }
    ensures reg_end { result.reg_end ≡ length m.new.regs }
    ensures few_regs { length m.new.regs < 2 ^ 32 }
    ensures made { IsMade m.old m.new reset_pc units places }
{
    let wire = m.wires().len() as u32;
    let reg = m.regs().len() as u32;
    make_wires(m, &[1, 2, 3, 5, 6, 6, 7, 7]);
    let pc = Some(reset_pc as u64);
    make_regs(
        m,
        &[
            (32, pc),
            (1, Some(0)),
            (1, Some(0)),
            (1, Some(0)),
            (1, Some(0)),
            (1, Some(0)),
            (32, None),
            (32, None),
            (1, None),
            (1, None),
            (7, None),
            (1, None),
            (1, None),
            (32, None),
            (32, None),
        ],
    );
    make_chosen(m, units);
    make_tail(m, places);
    let wire_end = m.wires().len() as u32;
    let reg_end = m.regs().len() as u32;
    Made {
        wire,
        wire_end,
        reg,
        reg_end,
    }
}
