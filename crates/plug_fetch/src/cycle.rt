ghost use Rattle.std.specs.Prelude.{◌≡◌, ℕ, ◌+◌, ◌<◌, ◌≤◌, ◌^◌, length};
ghost use Rattle.hw_gates.specs.Places.{Step};
ghost use Rattle.hw_module.specs.Scope.{scope_of};
ghost use Rattle.service_reg.specs.declared.service.Service.TheVariants.{Fetch};
ghost use Rattle.service_ports.specs.Ports.{fetch_ports, input_shapes};
ghost use Rattle.plug_build.specs.Fits.{AreInputs, OffersFit};
ghost use Rattle.plug_fetch.specs.Late.{ReadsCycle, predict_in};
ghost use Rattle.plug_fetch.specs.Registers.{IsOpenCommand};

use crate::places::Cycle;
use crate::predict::guess_net;
use crate::read::{read_coming, read_command};
use hw_pool::Pool;
use plug_build::Builder;
use service_ports::{FetchPorts, Registry};

/// Reads what the part takes in a cycle: the registers of the command, from `at` on, what comes, and the pc behind the word.
pub(crate) fn read_cycle(
    b: &Builder,
    pool: &mut Pool,
    reg: &Registry,
    ports: FetchPorts,
    at: u32,
) -> Cycle
    requires spare { 14 ≤ pool.old.spare }
    requires few { length b.now.design.regs < 2 ^ 32 }
    requires offers { OffersFit b.now.design pool.old reg.now }
    requires command { (reset_pc : ℕ) × IsOpenCommand b.now.design b.now.entry at reset_pc }
    requires inputs { AreInputs b.now.design b.now.entry (fetch_ports ports).inputs (input_shapes Fetch) }
    ensures reads { ReadsCycle pool.new (scope_of b.now.design) at ports (predict_in pool.old reg.now) result }
    ensures step { Step pool.old pool.new 14 }
{
    let command = read_command(b, pool, at);
    let coming = read_coming(b, pool, ports);
    let guess = guess_net(b, pool, reg, command.address);
    Cycle {
        given: command.given,
        owed: command.owed,
        dropped: command.dropped,
        address: command.address,
        next_pc: command.next_pc,
        take: coming.take,
        redirect: coming.redirect,
        redirect_pc: coming.redirect_pc,
        ready: coming.ready,
        answered: coming.answered,
        failed: coming.failed,
        payload: coming.payload,
        guess,
    }
}
