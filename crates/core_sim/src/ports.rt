ghost use Rattle.std.specs.Prelude.{◌≡◌, ℕ, ◌%◌, ◌^◌, ◌<◌, Bool, true, false, List, IfOk, length, map, vec_len};
ghost use Rattle.bus_law.specs.declared.signals.BusIn.{BusIn};
ghost use Rattle.core_ports.specs.Ports.{CorePort, is_input, name_of};
ghost use Rattle.verilog_mean.specs.Erase.{plain_ports};
ghost use Rattle.verilog_mean.specs.Names.{is_among};
ghost use Rattle.verilog_sim.specs.Layouts.{input_names, output_names};
ghost use Rattle.core_sim.specs.Joint.{inputs_of};
ghost use Rattle.core_sim.specs.Bench.{AreWithin, HasPlaces, IsPlace, bus_out_at, event_at, given};

use crate::event::Event;
use bus_law::{BusIn, BusOut};
use core_host::Name;
use std::alloc::{AllocError, Global};
use verilog_tree::PortDecl;

/// What drives an input of a core. `Zero` is the clock, or no port of a core.
#[derive(Clone, Copy, Drop)]
pub enum InputPort {
    Reset,
    IbCmdReady,
    IbRspValid,
    IbRspError,
    IbRspData,
    DbCmdReady,
    DbRspValid,
    DbRspError,
    DbRspData,
    IrqSoftware,
    IrqTimer,
    IrqExternal,
    Zero,
}

impl InputPort {
    /// What drives the input of this name.
    fn named(name: &Name) -> InputPort
        ensures { (reset : ℕ) (buses : BusIn) (lines : ℕ) → given reset buses lines result ≡ inputs_of reset buses lines name.now }
    {
        if name.is("reset") {
            InputPort::Reset
        } else if name.is("ib_cmd_ready") {
            InputPort::IbCmdReady
        } else if name.is("ib_rsp_valid") {
            InputPort::IbRspValid
        } else if name.is("ib_rsp_error") {
            InputPort::IbRspError
        } else if name.is("ib_rsp_data") {
            InputPort::IbRspData
        } else if name.is("db_cmd_ready") {
            InputPort::DbCmdReady
        } else if name.is("db_rsp_valid") {
            InputPort::DbRspValid
        } else if name.is("db_rsp_error") {
            InputPort::DbRspError
        } else if name.is("db_rsp_data") {
            InputPort::DbRspData
        } else if name.is("irq_software") {
            InputPort::IrqSoftware
        } else if name.is("irq_timer") {
            InputPort::IrqTimer
        } else if name.is("irq_external") {
            InputPort::IrqExternal
        } else {
            InputPort::Zero
        }
    }

    /// The value of the input in a cycle.
    fn value(self, reset: u64, buses: &BusIn, lines: u32) -> u64
        ensures { result ≡ given reset buses.now lines self }
    {
        match self {
            InputPort::Reset => reset,
            InputPort::IbCmdReady => u64::from(buses.ib_cmd_ready),
            InputPort::IbRspValid => u64::from(buses.ib_rsp_valid),
            InputPort::IbRspError => u64::from(buses.ib_rsp_error),
            InputPort::IbRspData => u64::from(buses.ib_rsp_data),
            InputPort::DbCmdReady => u64::from(buses.db_cmd_ready),
            InputPort::DbRspValid => u64::from(buses.db_rsp_valid),
            InputPort::DbRspError => u64::from(buses.db_rsp_error),
            InputPort::DbRspData => u64::from(buses.db_rsp_data),
            InputPort::IrqSoftware => u64::from(lines / 8 % 2),
            InputPort::IrqTimer => u64::from(lines / 128 % 2),
            InputPort::IrqExternal => u64::from(lines / 2048 % 2),
            InputPort::Zero => 0,
        }
    }
}

/// What drives each input, in the order of the ports.
pub fn input_ports(alloc: Global, ports: &[PortDecl]) -> Result<Vec<InputPort>, AllocError>
    ensures values { IfOk result (λ v. (reset : ℕ) (buses : BusIn) (lines : ℕ) → map (given reset buses lines) v.items ≡ map (inputs_of reset buses lines) (input_names (plain_ports ports.now))) }
    ensures len { IfOk result (λ v. vec_len v ≡ length (input_names (plain_ports ports.now))) }
{
    let mut inputs = Vec::new(alloc);
    for port in ports {
        if port.input {
            inputs.push(InputPort::named(&port.name.text))?;
        }
    }
    Ok(inputs)
}

/// Gives each input its value in a cycle.
pub fn drive(inputs: &[InputPort], reset: u64, buses: &BusIn, lines: u32, ins: &mut [u64])
    requires { length ins.old ≡ length inputs.now }
    ensures { ins.new ≡ map (given reset buses.now lines) inputs.now }
{
    let mut rest = inputs;
    let mut at: usize = 0;
    while let [input, more @ ..] = rest {
        ins[at] = input.value(reset, buses, lines);
        at += 1;
        rest = more;
    }
}

/// Where the outputs of a core that are read in each cycle stand among its outputs.
#[derive(Clone, Copy, Drop)]
pub struct Places {
    pub ib_cmd_valid: usize,
    pub ib_cmd_addr: usize,
    pub db_cmd_valid: usize,
    pub db_cmd_write: usize,
    pub db_cmd_addr: usize,
    pub db_cmd_data: usize,
    pub db_cmd_mask: usize,
    pub ev_valid: usize,
    pub ev_kind: usize,
    pub ev_pc: usize,
    pub ev_word: usize,
    pub ev_rd: usize,
    pub ev_value: usize,
    pub ev_cause: usize,
}

impl Places {
    /// The places in a module with these ports, which has those of a core.
    #[tactic(auto, unfolding(core_ports::specs::Ports::name_of))]
    pub fn among(ports: &[PortDecl]) -> Places
        requires { (p : CorePort) → is_input p ≡ false → is_among (name_of p) (output_names (plain_ports ports.now)) ≡ true }
        ensures { HasPlaces (output_names (plain_ports ports.now)) result }
    {
        Places {
            ib_cmd_valid: output_place(ports, "ib_cmd_valid"),
            ib_cmd_addr: output_place(ports, "ib_cmd_addr"),
            db_cmd_valid: output_place(ports, "db_cmd_valid"),
            db_cmd_write: output_place(ports, "db_cmd_write"),
            db_cmd_addr: output_place(ports, "db_cmd_addr"),
            db_cmd_data: output_place(ports, "db_cmd_data"),
            db_cmd_mask: output_place(ports, "db_cmd_mask"),
            ev_valid: output_place(ports, "ev_valid"),
            ev_kind: output_place(ports, "ev_kind"),
            ev_pc: output_place(ports, "ev_pc"),
            ev_word: output_place(ports, "ev_word"),
            ev_rd: output_place(ports, "ev_rd"),
            ev_value: output_place(ports, "ev_value"),
            ev_cause: output_place(ports, "ev_cause"),
        }
    }

    /// What the core drives on the buses.
    pub fn bus_out(&self, outs: &[u64]) -> BusOut
        requires { AreWithin self.now (length outs.now) }
        ensures { result ≡ bus_out_at self.now outs.now }
    {
        BusOut {
            ib_cmd_valid: outs[self.ib_cmd_valid] == 1,
            ib_cmd_addr: low_word(outs[self.ib_cmd_addr]),
            db_cmd_valid: outs[self.db_cmd_valid] == 1,
            db_cmd_write: outs[self.db_cmd_write] == 1,
            db_cmd_addr: low_word(outs[self.db_cmd_addr]),
            db_cmd_data: low_word(outs[self.db_cmd_data]),
            db_cmd_mask: low_word(outs[self.db_cmd_mask]),
        }
    }

    /// The event that the core tells.
    pub fn event(&self, outs: &[u64]) -> Option<Event>
        requires { AreWithin self.now (length outs.now) }
        ensures { result ≡ event_at self.now outs.now }
    {
        if outs[self.ev_valid] != 1 {
            return None;
        }
        Some(Event {
            kind: low_word(outs[self.ev_kind]),
            pc: low_word(outs[self.ev_pc]),
            word: low_word(outs[self.ev_word]),
            rd: low_word(outs[self.ev_rd]),
            value: low_word(outs[self.ev_value]),
            cause: low_word(outs[self.ev_cause]),
        })
    }
}

/// The place of an output of this name among the outputs.
fn output_place(ports: &[PortDecl], name: &str) -> usize
    requires { is_among name.now (output_names (plain_ports ports.now)) ≡ true }
    ensures { IsPlace (output_names (plain_ports ports.now)) name.now result }
{
    let mut at = 0;
    for port in ports {
        if port.input {
            continue;
        }
        if port.name.text.is(name) {
            return at;
        }
        at += 1;
    }
    at
}

/// The low 32 bits.
fn low_word(value: u64) -> u32
    ensures { result ≡ value % 2 ^ 32 }
{
    (value % 0x1_0000_0000) as u32
}
