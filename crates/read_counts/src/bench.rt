ghost use Rattle.std.specs.Prelude.{◌<◌, ◌^◌, length};
ghost use Rattle.core_config.specs.Allowed.{IsMemory};
ghost use Rattle.plug_api.specs.Accept.{MayBe};

use crate::rows::Row;
use bus_law::{Answerer, BusIn, BusOut, Mem};
use core_config::read_config;
use core_gen::{GenRefusal, generate};
use core_host::{Port, TextHost};
use plug_api::Plugin;
use stage_map::{Config, MemShape};
use std::alloc::{AllocError, Global};
use verilog_load::load_text;
use verilog_sim::TreeSim;

/// Room for the text of a core.
const TEXT_BYTES: u32 = 1_048_576;

/// The tree of a generated core, beside buses that answer at once.
#[derive(Drop)]
pub(crate) struct Bench {
    sim: TreeSim,
    buses: Answerer,
    outs: Vec<u64>,
}

/// What is told of a cycle.
#[derive(Clone, Copy)]
pub(crate) struct Told {
    /// The address of the instruction read that the bus accepts.
    pub(crate) read: Option<u32>,
    /// The kind of the core's event.
    pub(crate) event: Option<u32>,
}

impl Bench {
    /// The core and the memory of a row, in cycle 0.
    pub(crate) fn new(
        alloc: Global,
        row: &Row,
        plugs: &mut Vec<Box<dyn Plugin>>,
    ) -> anyhow::Result<Bench> {
        let config = read_config(alloc, row.config.as_bytes())?;
        let sim = simulator(alloc, &config, plugs)?;
        let buses = buses(alloc, config.mem, row.image)?;
        let outs = vec![in alloc; 0; sim.flat.outs.len()]?;
        Ok(Bench { sim, buses, outs })
    }

    /// Passes the cycle of this number.
    pub(crate) fn cycle(&mut self, number: u64) -> Told {
        let bus = self.buses.drive();
        if self.sim.flat.ins == 13 && self.sim.flat.outs.len() == self.outs.len() {
            self.sim.step(&inputs(number, &bus), &mut self.outs);
        }
        let outs = self.outs.as_slice();
        let out = bus_out(outs);
        self.buses.step(out);
        Told {
            read: if out.ib_cmd_valid && bus.ib_cmd_ready {
                Some(out.ib_cmd_addr)
            } else {
                None
            },
            event: if number > 0 && low_word(outs, 7) == 1 {
                Some(low_word(outs, 8))
            } else {
                None
            },
        }
    }
}

/// The simulator of the text that is generated.
fn simulator(
    alloc: Global,
    config: &Config,
    plugs: &mut Vec<Box<dyn Plugin>>,
) -> anyhow::Result<TreeSim>
    requires { MayBe config.now }
{
    // (it never is: this shows the bound on their number that the call asks for)
    if plugs.len() > 100 {
        return Err(GenRefusal::NoMemory.into());
    }
    let mut host = TextHost::with_room(alloc, TEXT_BYTES)?;
    generate(alloc, config, plugs, &mut host)?;
    let checked = load_text(alloc, host.pushed(Port::Main).as_slice())?;
    Ok(TreeSim::new(alloc, &checked)?)
}

/// Buses over a memory of this shape, with an image from its base on.
fn buses(alloc: Global, shape: MemShape, image: &[u32]) -> Result<Answerer, AllocError>
    requires { IsMemory shape }
{
    let mut mem = Mem::new(alloc, shape.base, shape.size)?;
    let mut addr = shape.base;
    for word in image {
        mem.apply(addr, *word, 0xf);
        addr = addr.wrapping_add(4);
    }
    Ok(Answerer::new(mem, vec![in alloc; 0]?))
}

/// What a core is given in the cycle of this number, in the order of the ports.
fn inputs(number: u64, bus: &BusIn) -> [u64; 13] {
    [
        0,
        u64::from(number == 0),
        u64::from(bus.ib_cmd_ready),
        u64::from(bus.ib_rsp_valid),
        u64::from(bus.ib_rsp_error),
        u64::from(bus.ib_rsp_data),
        u64::from(bus.db_cmd_ready),
        u64::from(bus.db_rsp_valid),
        u64::from(bus.db_rsp_error),
        u64::from(bus.db_rsp_data),
        0,
        0,
        0,
    ]
}

/// What a core gives the buses, from its outputs in the order of the ports.
fn bus_out(outs: &[u64]) -> BusOut {
    BusOut {
        ib_cmd_valid: low_word(outs, 0) == 1,
        ib_cmd_addr: low_word(outs, 1),
        db_cmd_valid: low_word(outs, 2) == 1,
        db_cmd_write: low_word(outs, 3) == 1,
        db_cmd_addr: low_word(outs, 4),
        db_cmd_data: low_word(outs, 5),
        db_cmd_mask: low_word(outs, 6),
    }
}

/// The low 32 bits of an output, 0 where there is none.
fn low_word(outs: &[u64], place: usize) -> u32 {
    match outs.get(place) {
        Some(value) => (*value % 0x1_0000_0000) as u32,
        None => 0,
    }
}
