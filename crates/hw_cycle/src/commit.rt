ghost use Rattle.std.specs.Prelude.{◌≡◌, ℕ, ◌<◌, get_or, length};
ghost use Rattle.hw_module.specs.Rows.{IsModule, array_at, out_at, reg_at};
ghost use Rattle.hw_cycle.specs.State.{cells_at};
ghost use Rattle.hw_cycle.specs.Inputs.{AreOutputs};
ghost use Rattle.hw_cycle.specs.Levels.{IsLive, driven_by};
ghost use Rattle.hw_cycle.specs.Commit.{CanWrite, next_in, written_in};

use crate::array::Array;
use crate::settle::driven;
use hw_module::{ArrayWrite, Module, PORTS, is_output};

/// Puts the values of the output ports into their places.
pub(crate) fn put_outs(m: &Module, values: &[u64], outs: &mut [u64])
    requires many { length outs.old ≡ 17 }
    requires live { (p : ℕ) → p < 30 → IsLive (length values.now) (out_at m.now.outs p) }
    ensures { AreOutputs (λ p. driven_by values.now (out_at m.now.outs p)) outs.new }
{
    let rows = m.outs().as_slice();
    let mut place: usize = 0;
    for port in 0..PORTS {
        if is_output(port) {
            outs[place] = driven(values, rows[port as usize]);
            place += 1;
        }
    }
}

/// The next value of a register.
fn next_value(reset: u64, start: Option<u64>, next: u64) -> u64
    ensures { result ≡ next_in reset start next }
{
    match start {
        Some(start) => { if reset == 1 { start } else { next } }
        None => next,
    }
}

/// The registers take their next values.
pub(crate) fn step_regs(m: &Module, reset: u64, values: &[u64], regs: &mut [u64])
    requires many { length regs.old ≡ length m.now.regs }
    requires live { (r : ℕ) → r < length m.now.regs → IsLive (length values.now) (reg_at m.now.regs r).next }
    ensures ranges { IsModule m.now }
    ensures next { (r : ℕ) → r < length m.now.regs → get_or regs.new r 0 ≡ next_in reset (reg_at m.now.regs r).reset (driven_by values.now (reg_at m.now.regs r).next) }
{
    let rows = m.regs().as_slice();
    for r in 0..rows.len() {
        let row = rows[r];
        regs[r] = next_value(reset, row.reset, driven(values, row.next));
    }
}

/// Does the write of an array.
fn write_cell(values: &[u64], write: Option<ArrayWrite>, array: &mut Array)
    requires { CanWrite values.now write array.old }
    ensures { array.new ≡ written_in values.now write array.old }
{
    match write {
        Some(write) => {
            if values[write.enable.id.0 as usize] == 1 {
                array.put(
                    values[write.addr.id.0 as usize],
                    values[write.value.id.0 as usize],
                );
            }
        }
        None => {}
    }
}

/// The arrays take their writes.
pub(crate) fn step_cells(m: &Module, values: &[u64], cells: &mut [Array])
    requires many { length cells.old ≡ length m.now.arrays }
    requires can { (a : ℕ) → a < length m.now.arrays → CanWrite values.now (array_at m.now.arrays a).write (cells_at cells.old a) }
    ensures { (a : ℕ) → a < length m.now.arrays → cells_at cells.new a ≡ written_in values.now (array_at m.now.arrays a).write (cells_at cells.old a) }
{
    let rows = m.arrays().as_slice();
    for a in 0..rows.len() {
        write_cell(values, rows[a].write, &mut cells[a]);
    }
}
