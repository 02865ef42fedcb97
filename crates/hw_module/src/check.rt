ghost use Rattle.std.specs.Prelude.{◌≡◌, ◌<◌, ◌^◌, length, Err, IfSome, IsOk, None};
ghost use Rattle.hw_module.specs.Rows.{array_at, reg_at, wire_at};
ghost use Rattle.hw_module.specs.Driven.{
  ArraysDriven,
  IsDriven,
  IsFirstUndriven,
  IsOpenOut,
  OutsDriven,
  RegsDriven,
  WiresDriven,
};

use crate::{ArrayRow, Module, ModuleFault, PORTS, RegRow, Thing, WireRow, is_output};
use hw_expr::Net;
use hw_pool::Pool;

/// The number of the first forward wire without a driver.
fn open_wire(rows: &[WireRow]) -> Option<u32>
    requires few { length rows.now < 2 ^ 32 }
    ensures first { IfSome result (λ k. (k < length rows.now) × ((wire_at rows.now k).driver ≡ None) × WiresDriven rows.now k) }
    ensures none { result ≡ None → WiresDriven rows.now (length rows.now) }
{
    for k in 0..rows.len() {
        if rows[k].driver.is_none() {
            return Some(k as u32);
        }
    }
    None
}

/// The number of the first register without a next value.
fn open_reg(rows: &[RegRow]) -> Option<u32>
    requires few { length rows.now < 2 ^ 32 }
    ensures first { IfSome result (λ k. (k < length rows.now) × ((reg_at rows.now k).next ≡ None) × RegsDriven rows.now k) }
    ensures none { result ≡ None → RegsDriven rows.now (length rows.now) }
{
    for k in 0..rows.len() {
        if rows[k].next.is_none() {
            return Some(k as u32);
        }
    }
    None
}

/// The number of the first array without a write.
fn open_array(rows: &[ArrayRow]) -> Option<u32>
    requires few { length rows.now < 2 ^ 32 }
    ensures first { IfSome result (λ k. (k < length rows.now) × ((array_at rows.now k).write ≡ None) × ArraysDriven rows.now k) }
    ensures none { result ≡ None → ArraysDriven rows.now (length rows.now) }
{
    for k in 0..rows.len() {
        if rows[k].write.is_none() {
            return Some(k as u32);
        }
    }
    None
}

/// The number of the first output port without a driver.
fn open_out(outs: &[Option<Net>]) -> Option<u32>
    requires ports { length outs.now ≡ 30 }
    ensures first { IfSome result (λ k. (k < 30) × IsOpenOut outs.now k × OutsDriven outs.now k) }
    ensures none { result ≡ None → OutsDriven outs.now 30 }
{
    for port in 0..PORTS {
        if is_output(port) && outs[port as usize].is_none() {
            return Some(port);
        }
    }
    None
}

impl Module {
    /// Whether each forward wire, register, array and output has its driver. It takes no memory.
    ///
    /// # Errors
    /// `Undriven` exactly where one has none, with the first in that order, each kind by number.
    pub fn check(&self, pool: &Pool) -> Result<(), ModuleFault>
        ensures ok { IsOk result → IsDriven self.now }
        ensures fault { (thing : Thing) → result ≡ Err (ModuleFault.Undriven thing) → IsFirstUndriven self.now thing }
    {
        let _ = pool;
        if let Some(wire) = open_wire(&self.wires) {
            return Err(ModuleFault::Undriven {
                thing: Thing::Wire(wire),
            });
        }
        if let Some(reg) = open_reg(&self.regs) {
            return Err(ModuleFault::Undriven {
                thing: Thing::Reg(reg),
            });
        }
        if let Some(array) = open_array(&self.arrays) {
            return Err(ModuleFault::Undriven {
                thing: Thing::Array(array),
            });
        }
        match open_out(&self.outs) {
            Some(port) => Err(ModuleFault::Undriven {
                thing: Thing::Out(port),
            }),
            None => Ok(()),
        }
    }
}
