ghost use Rattle.std.specs.Prelude.{◌<◌, ◌^◌, IfOk, length};
ghost use Rattle.hw_module.specs.Checked.{IsChecked};
ghost use Rattle.plug_api.specs.Accept.{MayBe};

use crate::bus::Bus;
use crate::cores::{Core, PROGRAM};
use crate::step::{Joined, step_both};
use core_config::read_config;
use core_gen::{GenRefusal, generate};
use core_host::{Port, TextHost};
use hw_cycle::Cycle;
use hw_pool::Pool;
use pipe_join::join;
use plug_api::{Plugin, accept};
use stage_map::Config;
use std::alloc::{AllocError, Global};
use verilog_load::load_text;
use verilog_sim::TreeSim;

/// How many cycles a core is stepped, with a reset in the first and in that of the middle.
const CYCLES: u64 = 600;

/// From this cycle on the bus answers with errors.
const ERRORS: u64 = 560;

/// What was seen of a core and its text.
#[derive(Clone, Copy)]
pub(crate) struct Seen {
    /// Cycles in which all outputs were equal, up to the first in which they were not.
    pub(crate) equal: u64,
    pub(crate) retired: u64,
    pub(crate) trapped: u64,
}

/// The simulator of the text that is generated.
fn generated(
    alloc: Global,
    config: &Config,
    plugs: &mut Vec<Box<dyn Plugin>>,
) -> anyhow::Result<TreeSim>
    requires config { MayBe config.now }
    requires few { length plugs.old.items < 2 ^ 32 }
    ensures few { length plugs.new.items < 2 ^ 32 }
{
    let mut host = TextHost::with_room(alloc, 131_072)?;
    generate(alloc, config, plugs, &mut host)?;
    let checked = load_text(alloc, host.pushed(Port::Main).as_slice())?;
    Ok(TreeSim::new(alloc, &checked)?)
}

/// The module that the plug-ins and the pipeline build.
fn joined(
    alloc: Global,
    config: &Config,
    plugs: &mut Vec<Box<dyn Plugin>>,
) -> anyhow::Result<Joined>
    requires config { MayBe config.now }
    requires few { length plugs.old.items < 2 ^ 32 }
    ensures checked { IfOk result (λ c. IsChecked c.circuit c.pool) }
    ensures few { length plugs.new.items < 2 ^ 32 }
{
    let plan = accept(alloc, config, plugs)?;
    let mut pool = Pool::new(alloc);
    match join(alloc, &plan, plugs, &mut pool) {
        Ok(circuit) => Ok(Joined { circuit, pool }),
        Err(_) => Err(GenRefusal::NoMemory.into()),
    }
}

/// Steps a module and the simulator of its text on a program.
fn step_all(
    alloc: Global,
    core: &Joined,
    sim: &mut TreeSim,
    program: &[u32],
) -> Result<Seen, AllocError>
    requires { IsChecked core.now.circuit core.now.pool }
{
    let mut cycle = Cycle::new(alloc, &core.circuit, &core.pool)?;
    let mut ours = vec![in alloc; 0; 17]?;
    let mut theirs = vec![in alloc; 0; sim.flat.outs.len()]?;
    let mut bus = Bus::new(program);
    let mut seen = Seen {
        equal: 0,
        retired: 0,
        trapped: 0,
    };
    for k in 0..CYCLES {
        if k == ERRORS {
            bus.fail();
        }
        let reset = k == 0 || k == CYCLES / 2;
        let ins = bus.inputs(alloc, reset)?;
        if !step_both(core, &mut cycle, sim, &ins, &mut ours, &mut theirs) {
            break;
        }
        bus.step(reset, ours.as_slice());
        seen.count(k + 1, ours.as_slice());
    }
    Ok(seen)
}

impl Seen {
    /// Counts a cycle with equal outputs.
    fn count(&mut self, equal: u64, outs: &[u64]) {
        self.equal = equal;
        if let [_, _, _, _, _, _, _, 1, kind, ..] = outs {
            if *kind == 0 {
                self.retired = self.retired.saturating_add(1);
            } else {
                self.trapped = self.trapped.saturating_add(1);
            }
        }
    }
}

/// Generates the text of a core, and steps it beside the core's module.
pub(crate) fn step_core(
    alloc: Global,
    core: &Core,
    plugs: &mut Vec<Box<dyn Plugin>>,
) -> anyhow::Result<Seen>
    requires few { length plugs.old.items < 2 ^ 32 }
    ensures few { length plugs.new.items < 2 ^ 32 }
{
    let text = core.text(alloc)?;
    let config = read_config(alloc, text.as_bytes())?;
    let mut sim = generated(alloc, &config, plugs)?;
    let module = joined(alloc, &config, plugs)?;
    let seen = step_all(alloc, &module, &mut sim, PROGRAM)?;
    Ok(seen)
}
