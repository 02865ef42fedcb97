ghost use Rattle.std.specs.Prelude.{◌≡◌, ℕ, ◌<◌, ◌⊎◌, OnOk, get_or, length};
ghost use Rattle.hw_module.specs.Checked.{DriversFit, IsChecked};
ghost use Rattle.hw_module.specs.Cycle.{next_held};
ghost use Rattle.hw_cycle.specs.State.{held_of};
ghost use Rattle.hw_cycle.specs.Inputs.{ins_of};
ghost use Rattle.part_bench.specs.Whole.{AreIn, IsOf};

use crate::close::{close_outputs, put_registers, watch_all};
use crate::ports::are_within;
use core_words::mask_of;
use hw_cycle::Cycle;
use hw_expr::Net;
use hw_module::Module;
use hw_pool::{Op, Pool};
use std::alloc::{AllocError, Global};
use std::marker::Model;
use thiserror::Error;

/// Why there is no bench.
#[derive(Clone, Copy, Debug, PartialEq, Eq, Error)]
pub enum BenchFault {
    /// Memory was refused.
    #[error("out of memory")]
    NoMemory,
    /// The module or its pool has no room for the test, or a thing of the part has no driver.
    #[error("the part cannot be tested alone")]
    Misfit,
}

impl From<AllocError> for BenchFault {
    fn from(_error: AllocError) -> BenchFault {
        BenchFault::NoMemory
    }
}

/// A part alone, whole with the things of the test, and its cycle.
#[derive(Drop)]
pub struct Bench {
    pool: Pool,
    circuit: Module,
    cycle: Cycle,
    ins: Vec<u64>,
    outs: Vec<u64>,
}

impl Model for Bench {
    ghost use Rattle.std.specs.Prelude.{◌≡◌, length};
    ghost use Rattle.hw_module.specs.Checked.{IsChecked};
    ghost use Rattle.part_bench.specs.Whole.{BenchValue, IsOf};

    ghost Value = { BenchValue };

    ghost view = { λ b. record { pool = b.pool; circuit = b.circuit; cycle = b.cycle; ins = b.ins.items; outs = b.outs.items } };

    ghost invariant = { λ b. IsChecked b.circuit b.pool × IsOf b.cycle b.circuit b.pool × (length b.ins.items ≡ 13) × (length b.outs.items ≡ 17) };
}

/// A module with the things of the test, each of which has its driver.
fn whole(m: &mut Module, pool: &mut Pool, nets: &[Net]) -> Result<(), BenchFault>
    requires drivers { DriversFit m.old pool.old }
    requires nets { AreIn m.old pool.old nets.now }
    ensures { OnOk result (IsChecked m.new pool.new) }
{
    if !put_registers(m, pool) || !watch_all(m, pool, nets) || !close_outputs(m, pool) {
        return Err(BenchFault::Misfit);
    }
    match m.check(pool) {
        Ok(()) => Ok(()),
        Err(_fault) => Err(BenchFault::Misfit),
    }
}

/// Sets what a register holds to the low bits of a number.
#[tactic(auto, using(crate::proofs::Pokes::reg_poked, crate::proofs::Pokes::masked_below))]
fn poke(m: &Module, pool: &Pool, cycle: &mut Cycle, reg: u32, number: u64)
    requires made { IsOf cycle.old m.now pool.now }
    ensures made { IsOf cycle.new m.now pool.now }
{
    let _ = pool;
    let rows = m.regs();
    if reg as usize >= rows.len() {
        return;
    }
    let value = number & mask_of(rows[reg as usize].width);
    cycle.poke_reg(reg, value);
}

/// One cycle. Nothing happens where an input is wider than its port.
fn step_whole(m: &Module, pool: &Pool, cycle: &mut Cycle, ins: &Vec<u64>, outs: &mut Vec<u64>)
    requires checked { IsChecked m.now pool.now }
    requires made { IsOf cycle.old m.now pool.now }
    requires ins { length ins.now.items ≡ 13 }
    requires outs { length outs.old.items ≡ 17 }
    ensures made { IsOf cycle.new m.now pool.now }
    ensures outs { length outs.new.items ≡ 17 }
    ensures next { (cycle.new ≡ cycle.old) ⊎ ((r : ℕ) → r < length m.now.regs → get_or cycle.new.regs r 0
        ≡ (next_held m.now pool.now.nodes (held_of cycle.old) (ins_of ins.now.items)).regs r) }
{
    if are_within(ins.as_slice()) {
        cycle.step(m, pool, ins, outs);
    }
}

/// The register that a net is.
fn register_of(pool: &Pool, net: Net) -> Option<u32> {
    if net.id.0 >= pool.live() {
        return None;
    }
    match pool.get(net.id).op {
        Op::Reg(reg) => Some(reg),
        _other => None,
    }
}

/// The register at a forward wire.
fn register_at(m: &Module, pool: &Pool, wire: u32) -> Option<u32> {
    let rows = m.wires();
    if wire as usize >= rows.len() {
        return None;
    }
    match rows[wire as usize].driver {
        Some(net) => register_of(pool, net),
        None => None,
    }
}

impl Bench {
    /// The module of a part with the things of a test that is to see these nets. Registers and arrays hold 0.
    ///
    /// # Errors
    /// `NoMemory` where memory was refused; `Misfit` where a room is used up, or a thing of the part has no driver.
    pub fn new(
        alloc: Global,
        circuit: Module,
        pool: Pool,
        nets: &[Net],
    ) -> Result<Bench, BenchFault>
        requires drivers { DriversFit circuit pool }
        requires nets { AreIn circuit pool nets.now }
    {
        let mut circuit = circuit;
        let mut pool = pool;
        whole(&mut circuit, &mut pool, nets)?;
        let cycle = Cycle::new(alloc, &circuit, &pool)?;
        let ins = vec![in alloc; 0; 13]?;
        let outs = vec![in alloc; 0; 17]?;
        Ok(Bench {
            pool,
            circuit,
            cycle,
            ins,
            outs,
        })
    }

    /// Sets the register at a forward wire to the low bits of a number. At another forward wire nothing happens.
    pub fn set(&mut self, wire: u32, number: u64) {
        if let Some(reg) = register_at(&self.circuit, &self.pool, wire) {
            poke(&self.circuit, &self.pool, &mut self.cycle, reg, number);
        }
    }

    /// Sets an input of the core, by its place among the inputs in the order of the ports.
    pub fn set_input(&mut self, place: usize, number: u64) {
        if place < 13 {
            self.ins[place] = number;
        }
    }

    /// One cycle, by `Cycle::step`. Nothing happens where an input is wider than its port.
    pub fn step(&mut self) {
        step_whole(
            &self.circuit,
            &self.pool,
            &mut self.cycle,
            &self.ins,
            &mut self.outs,
        );
    }

    /// The value that a net had in the last cycle, where a register takes it; else 0.
    pub fn read(&self, net: Net) -> u64 {
        let rows = self.circuit.regs();
        for k in 0..rows.len() {
            if rows[k].next == Some(net) {
                return self.cycle.reg(k as u32);
            }
        }
        0
    }

    /// The value that a net has in the next cycle, where it is that of a register; else 0.
    pub fn held(&self, net: Net) -> u64 {
        match register_of(&self.pool, net) {
            Some(reg) => {
                if (reg as usize) < self.circuit.regs().len() {
                    self.cycle.reg(reg)
                } else {
                    0
                }
            }
            None => 0,
        }
    }

    /// An output of the core in the last cycle, by its place among the outputs in the order of the ports; else 0.
    pub fn output(&self, place: usize) -> u64 {
        match self.outs.get(place) {
            Some(number) => *number,
            None => 0,
        }
    }
}
