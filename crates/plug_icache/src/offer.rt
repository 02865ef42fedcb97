ghost use Rattle.std.specs.Prelude.{◌≡◌, ℕ, ◌+◌, ◌<◌, ◌≤◌, ◌^◌, length, Some, None};
ghost use Rattle.hw_pool.specs.Meaning.{Env};
ghost use Rattle.hw_gates.specs.Places.{Step, value_in};
ghost use Rattle.service_reg.specs.declared.service.Service.TheVariants.{Fetch};
ghost use Rattle.service_ports.specs.Ports.{fetch_ports, output_level, output_widths};
ghost use Rattle.plug_build.specs.Fits.{AreOutputs};
ghost use Rattle.plug_kit.specs.Made.{fetch_list};
ghost use Rattle.plug_icache.specs.Registers.{IsOpenFour};

use hw_pool::Pool;
use plug_build::Builder;
use plug_kit::{FetchInputs, reg_net};
use service_ports::FetchPorts;

/// The ports of Fetch over its inputs and the registers of the item, from `item` on.
pub(crate) fn fetch_nets(b: &Builder, pool: &mut Pool, w: FetchInputs, item: u32) -> FetchPorts
    requires spare { 4 ≤ pool.old.spare }
    requires few { length b.now.design.regs < 2 ^ 32 }
    requires regs { IsOpenFour b.now.design b.now.entry item 1 32 32 1 (Some 0) None None None }
    ensures inputs { (fetch_ports result).inputs ≡ fetch_list w }
    ensures outputs { AreOutputs b.now.design pool.new (output_level Fetch) (fetch_ports result).outputs (output_widths Fetch) }
    ensures valid { (env : Env) → value_in env pool.new result.valid ≡ env.regs item }
    ensures pc { (env : Env) → value_in env pool.new result.pc ≡ env.regs (item + 1) }
    ensures word { (env : Env) → value_in env pool.new result.word ≡ env.regs (item + 2) }
    ensures error { (env : Env) → value_in env pool.new result.error ≡ env.regs (item + 3) }
    ensures step { Step pool.old pool.new 4 }
{
    let valid = reg_net(b, pool, item);
    let pc = reg_net(b, pool, item + 1);
    let word = reg_net(b, pool, item + 2);
    let error = reg_net(b, pool, item + 3);
    FetchPorts {
        take: w.take,
        redirect: w.redirect,
        redirect_pc: w.redirect_pc,
        fence: w.fence,
        valid,
        pc,
        word,
        error,
    }
}
