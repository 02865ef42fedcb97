ghost use Rattle.std.specs.Prelude.{◌≡◌, ℕ, ◌+◌, ◌*◌, ◌<◌, ◌≤◌, Bool, None, length};
ghost use Rattle.service_reg.specs.declared.service.Service.{Service};
ghost use Rattle.service_reg.specs.declared.service.Service.TheVariants.{Decoder, Fetch, Hazard, RegFile};
ghost use Rattle.service_ports.specs.Registry.{single};
ghost use Rattle.hw_module.specs.Driven.{IsDriven};
ghost use Rattle.hw_module.specs.declared.rows.Owner.TheVariants.{Pipe};
ghost use Rattle.plug_build.specs.Fits.{WorldFits};
ghost use Rattle.plug_build.specs.World.{Builds};
ghost use Rattle.part_laws.specs.Registered.{services_of};
ghost use Rattle.pipe_drive.specs.Rights.{pipe_rights};
ghost use Rattle.pipe_steps.specs.Numbers.{things_from};
ghost use Rattle.pipe_steps.specs.Steps.{IsPipeline};
ghost use Rattle.pipe_build.specs.Ready.{AreOffered, IsReady, shape_by, world_with};

use crate::drive_all::drive_rest;
use crate::nets::Offers;
use crate::places::drive_places;
use crate::unit::drive_units;
use crate::whole::pipe_nets;
use hw_module::Module;
use hw_pool::Pool;
use pipe_drive::make_things;
use service_ports::Registry;

/// The numbers of the pipeline's first forward wire and of its first register. The others follow.
#[derive(Clone, Copy, Debug, PartialEq, Eq)]
pub struct PipeNumbers {
    pub wire: u32,
    pub reg: u32,
}

/// The ports of the services that a core has once.
fn offers(reg: &Registry) -> Offers
    requires fetch { single reg.now Fetch ≡ None → ⊥ }
    requires decoder { single reg.now Decoder ≡ None → ⊥ }
    requires regs { single reg.now RegFile ≡ None → ⊥ }
    requires hazard { single reg.now Hazard ≡ None → ⊥ }
    ensures offered { AreOffered reg.now result }
{
    let fetch = reg.fetch().unwrap();
    let decoder = reg.decoder().unwrap();
    let regfile = reg.regfile().unwrap();
    let hazard = reg.hazard().unwrap();
    Offers {
        fetch,
        decoder,
        regfile,
        hazard,
        system: reg.system(),
    }
}

/// Makes the pipeline of a core that commits in execute: its registers and forward wires, and the drivers of all that the entries
/// left to it. `commits` says of each entry whether it works in the stage that commits. It takes no memory.
pub fn build_pipe(
    m: &mut Module,
    pool: &mut Pool,
    reg: &Registry,
    commits: &[bool],
    stages: u32,
    reset_pc: u32,
) -> PipeNumbers
    requires fits { WorldFits (world_with pool.old m.old reg.now) }
    requires ready { IsReady (world_with pool.old m.old reg.now) }
    requires commits { 32 ≤ length commits.now }
    requires least { 2 ≤ stages }
    requires most { stages ≤ 4 }
    requires room { 8192 + 256 * length reg.now.execs ≤ m.old.room }
    requires spare { 8192 + 256 * length reg.now.execs ≤ pool.old.spare }
    ensures fits { WorldFits (world_with pool.new m.new reg.now) }
    ensures driven { IsDriven m.new }
    ensures builds { Builds Pipe (pipe_rights reg.now) (8192 + 256 * length reg.now.execs) (world_with pool.old m.old reg.now) (world_with pool.new m.new reg.now) }
    ensures pipeline { (takes : ℕ → Service → Bool) → IsPipeline takes (world_with pool.new m.new reg.now)
        (things_from pool.new.nodes result.wire result.reg reg.now.execs (services_of takes pool.new.nodes reg.now) (shape_by stages reset_pc commits.now reg.now)) }
{
    let o = offers(reg);
    let execs = reg.execs().as_slice();
    let room = m.room();
    prove!(execs.len() < room as usize);
    let units = execs.len() as u32;
    let places = stages - 2;
    let made = make_things(m, reset_pc, units, places);
    let n = pipe_nets(m, pool, made.wire, made.reg, o, execs, places);
    drive_units(m, pool, n, execs, made.reg + 15, commits);
    let has_bus = reg.databus().is_some();
    drive_rest(m, pool, made.wire, made.reg, o, has_bus, n);
    drive_places(m, pool, made.reg + 15 + units, places, n.tail);
    PipeNumbers {
        wire: made.wire,
        reg: made.reg,
    }
}
