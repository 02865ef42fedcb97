ghost use Rattle.std.specs.Prelude.{◌≡◌, ℕ, ◌+◌, ◌-◌, ◌<◌, ◌≤◌, ◌^◌, get_or, length, Option};
ghost use Rattle.hw_pool.specs.Meaning.{Env};
ghost use Rattle.hw_gates.specs.Places.{Is, IsIn, Step, value_in};
ghost use Rattle.hw_module.specs.Scope.{scope_of};
ghost use Rattle.service_reg.specs.declared.service.Service.TheVariants.{Fetch};
ghost use Rattle.service_ports.specs.Ports.{fetch_ports, input_shapes};
ghost use Rattle.plug_build.specs.Fits.{AreInputs};
ghost use Rattle.cache_nets.specs.Machine.{cell_at, index_at};
ghost use Rattle.plug_icache.specs.Late.{ReadsComing, ReadsFour};
ghost use Rattle.plug_icache.specs.Reads.{Reads};
ghost use Rattle.plug_icache.specs.Registers.{AreOpenArrays, IsOpenFour};

use cache_nets::{Coming, Four, Sizes, cell_of, index_of};
use hw_expr::Net;
use hw_pool::Pool;
use plug_build::Builder;
use plug_kit::{cell_net, port_net, reg_net, wire_net};
use service_ports::FetchPorts;

/// Reads four registers that follow each other, from `reg` on.
#[tactic(auto, using(hw_gates::proofs::Plain::plain))]
pub(crate) fn read_four(b: &Builder, pool: &mut Pool, reg: u32) -> Four
    requires spare { 4 ≤ pool.old.spare }
    requires few { length b.now.design.regs < 2 ^ 32 }
    requires there { reg + 3 < length b.now.design.regs }
    ensures reads { (c d e f : ℕ) (rc rd re rf : Option ℕ) → IsOpenFour b.now.design b.now.entry reg c d e f rc rd re rf
        → ReadsFour pool.new (scope_of b.now.design) c d e f reg result }
    ensures step { Step pool.old pool.new 4 }
{
    let first = reg_net(b, pool, reg);
    let second = reg_net(b, pool, reg + 1);
    let third = reg_net(b, pool, reg + 2);
    let fourth = reg_net(b, pool, reg + 3);
    Four {
        first,
        second,
        third,
        fourth,
    }
}

/// Reads what comes from the pipeline and from the instruction bus.
#[tactic(auto, using(hw_gates::proofs::Plain::plain), unfolding(hw_module::specs::Ports::port_at))]
pub(crate) fn read_coming(b: &Builder, pool: &mut Pool, ports: FetchPorts) -> Coming
    requires spare { 8 ≤ pool.old.spare }
    requires inputs { AreInputs b.now.design b.now.entry (fetch_ports ports).inputs (input_shapes Fetch) }
    ensures take { Reads pool.new (scope_of b.now.design) 1 8 (λ env. env.wires ports.take) result.take }
    ensures redirect { Reads pool.new (scope_of b.now.design) 1 8 (λ env. env.wires ports.redirect) result.redirect }
    ensures redirect_pc { Reads pool.new (scope_of b.now.design) 32 8 (λ env. env.wires ports.redirect_pc) result.redirect_pc }
    ensures fence { Reads pool.new (scope_of b.now.design) 1 8 (λ env. env.wires ports.fence) result.fence }
    ensures ready { Reads pool.new (scope_of b.now.design) 1 0 (λ env. env.inputs 3) result.ready }
    ensures answered { Reads pool.new (scope_of b.now.design) 1 0 (λ env. env.inputs 5) result.answered }
    ensures failed { Reads pool.new (scope_of b.now.design) 1 0 (λ env. env.inputs 6) result.failed }
    ensures payload { Reads pool.new (scope_of b.now.design) 32 0 (λ env. env.inputs 7) result.payload }
    ensures step { Step pool.old pool.new 8 }
{
    let take = wire_net(b, pool, ports.take);
    let redirect = wire_net(b, pool, ports.redirect);
    let redirect_pc = wire_net(b, pool, ports.redirect_pc);
    let fence = wire_net(b, pool, ports.fence);
    let ready = port_net(b, pool, 3);
    let answered = port_net(b, pool, 5);
    let failed = port_net(b, pool, 6);
    let payload = port_net(b, pool, 7);
    Coming {
        take,
        redirect,
        redirect_pc,
        fence,
        ready,
        answered,
        failed,
        payload,
    }
}

/// Reads the tag under a pc, from the array of tags.
#[tactic(auto, using(hw_gates::proofs::Plain::plain))]
pub(crate) fn read_tag(b: &Builder, pool: &mut Pool, z: Sizes, tags: u32, pc: Net) -> Net
    requires spare { 2 ≤ pool.old.spare }
    requires index { 1 ≤ z.index }
    requires few_lines { z.index ≤ 10 }
    requires place { 1 ≤ z.place }
    requires few_words { z.place ≤ 4 }
    requires arrays { AreOpenArrays b.now.design b.now.entry tags z.index z.place }
    requires pc { Is pool.old pc 32 0 }
    requires scope { IsIn (scope_of b.now.design) pool.old pc }
    ensures value { (env : Env) → value_in env pool.new result ≡ get_or (env.cells tags) (index_at z.index z.place (value_in env pool.old pc)) 0 }
    ensures net { Is pool.new result (31 - z.place - z.index) 0 }
    ensures scope { IsIn (scope_of b.now.design) pool.new result }
    ensures step { Step pool.old pool.new 2 }
{
    let index = index_of(pool, z, pc);
    cell_net(b, pool, tags, index)
}

/// Reads the word under a pc, from the array of words, which is behind that of tags.
#[tactic(auto, using(hw_gates::proofs::Plain::plain))]
pub(crate) fn read_word(b: &Builder, pool: &mut Pool, z: Sizes, tags: u32, pc: Net) -> Net
    requires spare { 4 ≤ pool.old.spare }
    requires few { length b.now.design.arrays < 2 ^ 32 }
    requires index { 1 ≤ z.index }
    requires few_lines { z.index ≤ 10 }
    requires place { 1 ≤ z.place }
    requires few_words { z.place ≤ 4 }
    requires arrays { AreOpenArrays b.now.design b.now.entry tags z.index z.place }
    requires pc { Is pool.old pc 32 0 }
    requires scope { IsIn (scope_of b.now.design) pool.old pc }
    ensures value { (env : Env) → value_in env pool.new result ≡ get_or (env.cells (tags + 1)) (cell_at z.index z.place (value_in env pool.old pc)) 0 }
    ensures net { Is pool.new result 32 0 }
    ensures scope { IsIn (scope_of b.now.design) pool.new result }
    ensures step { Step pool.old pool.new 4 }
{
    let at = cell_of(pool, z, pc);
    cell_net(b, pool, tags + 1, at)
}
