ghost use Rattle.std.specs.Prelude.{◌≡◌, ℕ, ◌+◌, ◌<◌, ◌≤◌, ◌*◌, length};
ghost use Rattle.hw_pool.specs.Nodes.{IsWidth};
ghost use Rattle.hw_module.specs.Rows.{IsReset, reg_at};
ghost use Rattle.plug_fetch.specs.Registers.{IsOpenCommand, IsOpenPlace, MakesRegs, open_row};

use plug_build::Builder;

/// Makes a register. It takes no memory.
fn make_reg(b: &mut Builder, width: u32, reset: Option<u64>) -> u32
    requires room { 1 ≤ b.old.design.room }
    requires width { IsWidth width }
    requires reset { IsReset width reset }
    ensures number { result ≡ length b.old.design.regs }
    ensures made { reg_at b.new.design.regs (length b.old.design.regs) ≡ open_row b.old.entry width reset }
    ensures makes { MakesRegs 1 b.old b.new }
{
    b.reg(width, reset)
}

/// Makes the registers of a place: whether it is held, the pc, the word, and whether the word could not be read. It takes no memory.
fn make_place(b: &mut Builder)
    requires room { 4 ≤ b.old.design.room }
    ensures place { IsOpenPlace b.new.design b.old.entry (length b.old.design.regs) }
    ensures makes { MakesRegs 4 b.old b.new }
{
    let _held = make_reg(b, 1, Some(0));
    let _pc = make_reg(b, 32, None);
    let _word = make_reg(b, 32, None);
    let _error = make_reg(b, 1, None);
}

/// Makes the registers of `depth` places. It takes no memory.
pub(crate) fn make_places(b: &mut Builder, depth: u32)
    requires room { 4 * depth ≤ b.old.design.room }
    ensures places { (i : ℕ) → i < depth → IsOpenPlace b.new.design b.old.entry (length b.old.design.regs + 4 * i) }
    ensures makes { MakesRegs (4 * depth) b.old b.new }
{
    for _i in 0..depth {
        make_place(b);
    }
}

/// Makes the registers of the command; the first pc is `reset_pc`. It takes no memory.
pub(crate) fn make_command(b: &mut Builder, reset_pc: u32)
    requires room { 5 ≤ b.old.design.room }
    ensures command { IsOpenCommand b.new.design b.old.entry (length b.old.design.regs) reset_pc }
    ensures makes { MakesRegs 5 b.old b.new }
{
    let _given = make_reg(b, 1, Some(0));
    let _owed = make_reg(b, 1, Some(0));
    let _dropped = make_reg(b, 1, Some(0));
    let _address = make_reg(b, 32, None);
    let _next_pc = make_reg(b, 32, Some(u64::from(reset_pc)));
}
