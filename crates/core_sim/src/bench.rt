ghost use Rattle.std.specs.Prelude.{◌≡◌, ◌<◌, ◌*◌, ◌^◌, IfOk, length};
ghost use Rattle.core_words.specs.Values.{one_if};
ghost use Rattle.bus_law.specs.Memory.{IsMemory};
ghost use Rattle.verilog_mean.specs.Checked.{IsChecked};
ghost use Rattle.verilog_mean.specs.Cycle.{value};
ghost use Rattle.verilog_mean.specs.Erase.{plain_tree};
ghost use Rattle.verilog_mean.specs.Plain.{Plain};
ghost use Rattle.verilog_mean.specs.Zero.{zero_state};
ghost use Rattle.core_sim.specs.Joint.{Joint, joint_inputs, joint_next, joint_start, outputs_of, reset_in};
ghost use Rattle.core_sim.specs.Bench.{HasPassed, IsBench, IsCore, IsReady, accepted, event_in, masked, write_in};
ghost use Rattle.core_sim.specs.Pending.{noted};
ghost use Rattle.bus_law.specs.Answers.{driven};

use crate::event::{Told, Write};
use crate::ports::{InputPort, Places, drive, input_ports};
use bus_law::{Answerer, BusIn, BusOut, Mem};
use std::alloc::{AllocError, Global};
use verilog_mean::Checked;
use verilog_sim::TreeSim;

/// A test bench: the simulator of a core and its buses, joined port by port.
#[derive(Drop)]
pub struct Bench {
    pub sim: TreeSim,
    pub buses: Answerer,
    pub inputs: Vec<InputPort>,
    pub places: Places,
    pub ins: Vec<u64>,
    pub outs: Vec<u64>,
}

impl Bench {
    /// A bench in cycle 0, with contents that are all 0. It takes all the memory that a run needs.
    pub fn new(
        alloc: Global,
        checked: &Checked,
        mem: Mem,
        delays: &[u32],
    ) -> Result<Bench, AllocError>
        requires checked { IsChecked checked.now }
        requires core { IsCore (plain_tree checked.now.tree) }
        requires delays { 0 < length delays.now }
        ensures ready { IfOk result (λ b. IsReady b) }
        ensures memory { IsMemory mem }
        ensures bench { IfOk result (λ b. IsBench (plain_tree checked.now.tree) (joint_start (zero_state (plain_tree checked.now.tree)) mem delays.now) b) }
    {
        // By its contract the memory is one of a system.
        let _base = mem.base();
        let ports = checked.tree.ports.items().as_slice();
        let sim = TreeSim::new(alloc, checked)?;
        let delays = Vec::from_slice(alloc, delays)?;
        let inputs = input_ports(alloc, ports)?;
        let ins = Vec::from_elem(alloc, 0u64, sim.flat.ins)?;
        let outs = Vec::from_elem(alloc, 0u64, sim.flat.outs.len())?;
        Ok(Bench {
            sim,
            buses: Answerer::new(mem, delays),
            inputs,
            places: Places::among(ports),
            ins,
            outs,
        })
    }

    /// One cycle of this number, from 0 on, with these interrupt lines in bits 3, 7 and 11. Answers the event that the
    /// core tells in it, and the write that the data bus accepts in it.
    pub fn cycle(&mut self, number: u64, lines: u32) -> Told
        requires { IsReady self.old }
        ensures ready { IsReady self.new }
        ensures event { (m : Plain) (j : Joint) → IsCore m → IsBench m j self.old → result.event ≡ event_in number (value m j.core (joint_inputs number lines j)) }
        ensures write { (m : Plain) (j : Joint) → IsCore m → IsBench m j self.old → noted result.write ≡ write_in m number lines j }
        ensures next { (m : Plain) (j : Joint) → IsCore m → IsBench m j self.old → IsBench m (joint_next m number lines j) self.new }
    {
        let write = self.step(number, lines);
        if number == 0 {
            return Told {
                event: None,
                write: None,
            };
        }
        Told {
            event: self.places.event(self.outs.as_slice()),
            write,
        }
    }

    /// Gives the core what the buses drive, and the buses what the core drives, and passes the edge of the clock. Answers
    /// the write that the data bus accepts.
    fn step(&mut self, number: u64, lines: u32) -> Option<Write>
        requires { IsReady self.old }
        ensures ready { IsReady self.new }
        ensures passed { (m : Plain) (j : Joint) → IsCore m → IsBench m j self.old → HasPassed m number lines j self.new }
        ensures write { (m : Plain) (j : Joint) → IsCore m → IsBench m j self.old
            → noted result ≡ accepted (driven j.buses) (outputs_of (value m j.core (joint_inputs number lines j))) }
    {
        let driven = self.buses.drive();
        drive(
            self.inputs.as_slice(),
            reset_in(number),
            &driven,
            lines,
            self.ins.as_mut_slice(),
        );
        self.sim.step(self.ins.as_slice(), &mut self.outs);
        let out = self.places.bus_out(self.outs.as_slice());
        self.buses.step(out);
        accepted_write(driven, out)
    }
}

/// The write that the data bus accepts, where the bus and the core drive these.
fn accepted_write(driven: BusIn, out: BusOut) -> Option<Write>
    ensures { noted result ≡ accepted driven out }
{
    if out.db_cmd_valid && driven.db_cmd_ready && out.db_cmd_write {
        Some(Write {
            addr: out.db_cmd_addr / 4 * 4,
            value: masked(out.db_cmd_data, out.db_cmd_mask),
            mask: out.db_cmd_mask,
        })
    } else {
        None
    }
}

/// A word with 0 in the lanes that a mask leaves out.
fn masked(word: u32, mask: u32) -> u32
    ensures { result ≡ masked word mask }
{
    lane(word % 0x100, mask % 2 == 1)
        + lane(word / 0x100 % 0x100, mask / 2 % 2 == 1) * 0x100
        + lane(word / 0x10000 % 0x100, mask / 4 % 2 == 1) * 0x10000
        + lane(word / 0x1000000 % 0x100, mask / 8 % 2 == 1) * 0x1000000
}

/// A byte where its lane is taken, and else 0.
fn lane(byte: u32, taken: bool) -> u32
    requires { byte < 2 ^ 8 }
    ensures value { result ≡ one_if taken * byte }
    ensures byte { result < 2 ^ 8 }
{
    if taken { byte } else { 0 }
}

/// The reset of a cycle: 1 in cycle 0 alone.
fn reset_in(number: u64) -> u64
    ensures { result ≡ reset_in number }
{
    if number == 0 { 1 } else { 0 }
}
