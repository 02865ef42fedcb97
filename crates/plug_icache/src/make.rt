ghost use Rattle.std.specs.Prelude.{◌≡◌, ℕ, ◌+◌, ◌-◌, ◌<◌, ◌≤◌, ◌^◌, length, Some, None};
ghost use Rattle.hw_pool.specs.Nodes.{IsWidth};
ghost use Rattle.hw_module.specs.Rows.{IsReset, reg_at};
ghost use Rattle.plug_icache.specs.Registers.{AreOpenArrays, AreOpenRegs, IsOpenFour, MakesArrays, MakesRegs, open_row};

use cache_nets::Sizes;
use plug_build::Builder;

/// Makes a register. It takes no memory.
fn make_reg(b: &mut Builder, width: u32, reset: Option<u64>) -> u32
    requires room { 1 ≤ b.old.design.room }
    requires width { IsWidth width }
    requires reset { IsReset width reset }
    ensures number { result ≡ length b.old.design.regs }
    ensures made { reg_at b.new.design.regs (length b.old.design.regs) ≡ open_row b.old.entry width reset }
    ensures makes { MakesRegs 1 b.old b.new }
{
    b.reg(width, reset)
}

/// Makes pc, walk, given and owed; the first pc is `reset_pc`. It takes no memory.
fn make_front(b: &mut Builder, z: Sizes, reset_pc: u32)
    requires room { 4 ≤ b.old.design.room }
    requires few_lines { z.index ≤ 10 }
    ensures regs { IsOpenFour b.new.design b.old.entry (length b.old.design.regs) 32 (z.index + 1) 1 1 (Some reset_pc) (Some 0) (Some 0) (Some 0) }
    ensures makes { MakesRegs 4 b.old b.new }
{
    let _pc = make_reg(b, 32, Some(u64::from(reset_pc)));
    let _walk = make_reg(b, z.index + 1, Some(0));
    let _given = make_reg(b, 1, Some(0));
    let _owed = make_reg(b, 1, Some(0));
}

/// Makes dropped, line, place and bad. It takes no memory.
fn make_reading(b: &mut Builder, z: Sizes)
    requires room { 4 ≤ b.old.design.room }
    requires place { 1 ≤ z.place }
    requires few_words { z.place ≤ 4 }
    ensures regs { IsOpenFour b.new.design b.old.entry (length b.old.design.regs) 1 (30 - z.place) z.place 1 (Some 0) None None None }
    ensures makes { MakesRegs 4 b.old b.new }
{
    let _dropped = make_reg(b, 1, Some(0));
    let _line = make_reg(b, 30 - z.place, None);
    let _place = make_reg(b, z.place, None);
    let _bad = make_reg(b, 1, None);
}

/// Makes wanted, captured, and the captured word and error. It takes no memory.
fn make_caught(b: &mut Builder)
    requires room { 4 ≤ b.old.design.room }
    ensures regs { IsOpenFour b.new.design b.old.entry (length b.old.design.regs) 1 1 32 1 None (Some 0) None None }
    ensures makes { MakesRegs 4 b.old b.new }
{
    let _wanted = make_reg(b, 1, None);
    let _captured = make_reg(b, 1, Some(0));
    let _word = make_reg(b, 32, None);
    let _error = make_reg(b, 1, None);
}

/// Makes full, and the pc, word and error of the item. It takes no memory.
fn make_item(b: &mut Builder)
    requires room { 4 ≤ b.old.design.room }
    ensures regs { IsOpenFour b.new.design b.old.entry (length b.old.design.regs) 1 32 32 1 (Some 0) None None None }
    ensures makes { MakesRegs 4 b.old b.new }
{
    let _full = make_reg(b, 1, Some(0));
    let _pc = make_reg(b, 32, None);
    let _word = make_reg(b, 32, None);
    let _error = make_reg(b, 1, None);
}

/// Makes the sixteen registers. It takes no memory.
fn make_sixteen(b: &mut Builder, z: Sizes, reset_pc: u32)
    requires room { 16 ≤ b.old.design.room }
    requires few_lines { z.index ≤ 10 }
    requires place { 1 ≤ z.place }
    requires few_words { z.place ≤ 4 }
    ensures regs { AreOpenRegs b.new.design b.old.entry (length b.old.design.regs) z.index z.place reset_pc }
    ensures makes { MakesRegs 16 b.old b.new }
{
    make_front(b, z, reset_pc);
    make_reading(b, z);
    make_caught(b);
    make_item(b);
}

/// Makes the registers of the part, and answers the number of the first. It takes no memory.
pub(crate) fn make_regs(b: &mut Builder, z: Sizes, reset_pc: u32) -> u32
    requires room { 16 ≤ b.old.design.room }
    requires few_lines { z.index ≤ 10 }
    requires place { 1 ≤ z.place }
    requires few_words { z.place ≤ 4 }
    ensures first { result ≡ length b.old.design.regs }
    ensures few { length b.new.design.regs < 2 ^ 32 }
    ensures regs { AreOpenRegs b.new.design b.old.entry result z.index z.place reset_pc }
    ensures makes { MakesRegs 16 b.old b.new }
{
    let first = b.regs().len() as u32;
    make_sixteen(b, z, reset_pc);
    let _rows = b.regs();
    first
}

/// Makes the arrays of tags and of words, and answers the number of the first. It takes no memory.
pub(crate) fn make_arrays(b: &mut Builder, z: Sizes) -> u32
    requires room { 2 ≤ b.old.design.room }
    requires index { 1 ≤ z.index }
    requires few_lines { z.index ≤ 10 }
    requires few_words { z.place ≤ 4 }
    ensures first { result ≡ length b.old.design.arrays }
    ensures arrays { AreOpenArrays b.new.design b.old.entry result z.index z.place }
    ensures makes { MakesArrays b.old b.new }
{
    let tags = b.array(31 - z.place - z.index, z.index);
    let _words = b.array(32, z.index + z.place);
    tags
}
