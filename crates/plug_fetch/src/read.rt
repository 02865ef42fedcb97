ghost use Rattle.std.specs.Prelude.{◌≡◌, ℕ, ◌+◌, ◌<◌, ◌≤◌, ◌^◌, length};
ghost use Rattle.hw_pool.specs.Meaning.{Env};
ghost use Rattle.hw_gates.specs.Places.{Is, IsIn, Step, value_in};
ghost use Rattle.hw_module.specs.Scope.{scope_of};
ghost use Rattle.service_reg.specs.declared.service.Service.TheVariants.{Fetch};
ghost use Rattle.service_ports.specs.Ports.{fetch_ports, input_shapes};
ghost use Rattle.plug_build.specs.Fits.{AreInputs};
ghost use Rattle.plug_fetch.specs.Reads.{Reads};
ghost use Rattle.plug_fetch.specs.Registers.{IsOpenCommand};

use hw_expr::Net;
use hw_pool::Pool;
use plug_build::Builder;
use plug_kit::{port_net, reg_net, wire_net};
use service_ports::FetchPorts;

/// The registers of the command.
#[derive(Clone, Copy, Debug)]
pub(crate) struct Commanded {
    pub(crate) given: Net,
    pub(crate) owed: Net,
    pub(crate) dropped: Net,
    pub(crate) address: Net,
    pub(crate) next_pc: Net,
}

/// What comes from the pipeline and from the bus.
#[derive(Clone, Copy, Debug)]
pub(crate) struct Coming {
    pub(crate) take: Net,
    pub(crate) redirect: Net,
    pub(crate) redirect_pc: Net,
    pub(crate) ready: Net,
    pub(crate) answered: Net,
    pub(crate) failed: Net,
    pub(crate) payload: Net,
}

/// Reads the registers of the command, from `reg` on.
#[tactic(auto, using(hw_gates::proofs::Plain::plain))]
pub(crate) fn read_command(b: &Builder, pool: &mut Pool, reg: u32) -> Commanded
    requires spare { 5 ≤ pool.old.spare }
    requires few { length b.now.design.regs < 2 ^ 32 }
    requires command { (reset_pc : ℕ) × IsOpenCommand b.now.design b.now.entry reg reset_pc }
    ensures given { Reads pool.new (scope_of b.now.design) 1 (λ env. env.regs reg) result.given }
    ensures owed { Reads pool.new (scope_of b.now.design) 1 (λ env. env.regs (reg + 1)) result.owed }
    ensures dropped { Reads pool.new (scope_of b.now.design) 1 (λ env. env.regs (reg + 2)) result.dropped }
    ensures address { Reads pool.new (scope_of b.now.design) 32 (λ env. env.regs (reg + 3)) result.address }
    ensures next_pc { Reads pool.new (scope_of b.now.design) 32 (λ env. env.regs (reg + 4)) result.next_pc }
    ensures flat { result.given.level ≡ 0 }
    ensures low { result.address.level ≡ 0 }
    ensures step { Step pool.old pool.new 5 }
{
    let given = reg_net(b, pool, reg);
    let owed = reg_net(b, pool, reg + 1);
    let dropped = reg_net(b, pool, reg + 2);
    let address = reg_net(b, pool, reg + 3);
    let next_pc = reg_net(b, pool, reg + 4);
    Commanded {
        given,
        owed,
        dropped,
        address,
        next_pc,
    }
}

/// Reads what comes from the pipeline and from the instruction bus.
#[tactic(auto, using(hw_gates::proofs::Plain::plain), unfolding(hw_module::specs::Ports::port_at))]
pub(crate) fn read_coming(b: &Builder, pool: &mut Pool, ports: FetchPorts) -> Coming
    requires spare { 7 ≤ pool.old.spare }
    requires inputs { AreInputs b.now.design b.now.entry (fetch_ports ports).inputs (input_shapes Fetch) }
    ensures take { Reads pool.new (scope_of b.now.design) 1 (λ env. env.wires ports.take) result.take }
    ensures redirect { Reads pool.new (scope_of b.now.design) 1 (λ env. env.wires ports.redirect) result.redirect }
    ensures redirect_pc { Reads pool.new (scope_of b.now.design) 32 (λ env. env.wires ports.redirect_pc) result.redirect_pc }
    ensures ready { Reads pool.new (scope_of b.now.design) 1 (λ env. env.inputs 3) result.ready }
    ensures answered { Reads pool.new (scope_of b.now.design) 1 (λ env. env.inputs 5) result.answered }
    ensures failed { Reads pool.new (scope_of b.now.design) 1 (λ env. env.inputs 6) result.failed }
    ensures payload { Reads pool.new (scope_of b.now.design) 32 (λ env. env.inputs 7) result.payload }
    ensures low { result.payload.level ≡ 0 }
    ensures step { Step pool.old pool.new 7 }
{
    let take = wire_net(b, pool, ports.take);
    let redirect = wire_net(b, pool, ports.redirect);
    let redirect_pc = wire_net(b, pool, ports.redirect_pc);
    let ready = port_net(b, pool, 3);
    let answered = port_net(b, pool, 5);
    let failed = port_net(b, pool, 6);
    let payload = port_net(b, pool, 7);
    Coming {
        take,
        redirect,
        redirect_pc,
        ready,
        answered,
        failed,
        payload,
    }
}
