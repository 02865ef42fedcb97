ghost use Rattle.std.specs.Prelude.{◌≡◌, ℕ, ◌<◌, length};
ghost use Rattle.hw_module.specs.declared.rows.Owner.TheVariants.{Entry};
ghost use Rattle.hw_module.specs.Rows.{array_at, reg_at};

use plug_build::Builder;

/// The least number of a register of the entry, which owns one. It takes no memory.
pub fn own_reg(b: &Builder) -> u32
    requires owns { (k : ℕ) × (k < length b.now.design.regs) × ((reg_at b.now.design.regs k).owner ≡ Entry b.now.entry) }
    ensures there { result < length b.now.design.regs }
    ensures owner { (reg_at b.now.design.regs result).owner ≡ Entry b.now.entry }
    ensures least { (k : ℕ) → k < result → (reg_at b.now.design.regs k).owner ≡ Entry b.now.entry → ⊥ }
{
    b.first_reg().unwrap()
}

/// The least number of an array of the entry, which owns one. It takes no memory.
pub fn own_array(b: &Builder) -> u32
    requires owns { (k : ℕ) × (k < length b.now.design.arrays) × ((array_at b.now.design.arrays k).owner ≡ Entry b.now.entry) }
    ensures there { result < length b.now.design.arrays }
    ensures owner { (array_at b.now.design.arrays result).owner ≡ Entry b.now.entry }
    ensures least { (k : ℕ) → k < result → (array_at b.now.design.arrays k).owner ≡ Entry b.now.entry → ⊥ }
{
    b.first_array().unwrap()
}
