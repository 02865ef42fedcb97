ghost use Rattle.std.specs.Prelude.{◌≡◌, ℕ, ◌+◌, ◌*◌, ◌<◌, ◌≤◌, ◌^◌, length};
ghost use Rattle.hw_pool.specs.Meaning.{Env};
ghost use Rattle.hw_gates.specs.Places.{Step, value_in};
ghost use Rattle.service_reg.specs.declared.service.Service.TheVariants.{Fetch};
ghost use Rattle.service_ports.specs.Ports.{fetch_ports, output_level, output_widths};
ghost use Rattle.plug_build.specs.Fits.{AreOutputs};
ghost use Rattle.plug_kit.specs.Made.{fetch_list};
ghost use Rattle.plug_fetch.specs.Registers.{IsOpenCommand, IsOpenPlace, MakesRegs};

use crate::make::{make_command, make_places};
use hw_pool::Pool;
use plug_build::Builder;
use plug_kit::{FetchInputs, reg_net};
use service_ports::FetchPorts;

/// The ports of Fetch over its inputs and the registers of the first place, from `first` on.
pub(crate) fn fetch_nets(b: &Builder, pool: &mut Pool, w: FetchInputs, first: u32) -> FetchPorts
    requires spare { 4 ≤ pool.old.spare }
    requires few { length b.now.design.regs < 2 ^ 32 }
    requires place { IsOpenPlace b.now.design b.now.entry first }
    ensures inputs { (fetch_ports result).inputs ≡ fetch_list w }
    ensures outputs { AreOutputs b.now.design pool.new (output_level Fetch) (fetch_ports result).outputs (output_widths Fetch) }
    ensures valid { (env : Env) → value_in env pool.new result.valid ≡ env.regs first }
    ensures pc { (env : Env) → value_in env pool.new result.pc ≡ env.regs (first + 1) }
    ensures word { (env : Env) → value_in env pool.new result.word ≡ env.regs (first + 2) }
    ensures error { (env : Env) → value_in env pool.new result.error ≡ env.regs (first + 3) }
    ensures step { Step pool.old pool.new 4 }
{
    let valid = reg_net(b, pool, first);
    let pc = reg_net(b, pool, first + 1);
    let word = reg_net(b, pool, first + 2);
    let error = reg_net(b, pool, first + 3);
    FetchPorts {
        take: w.take,
        redirect: w.redirect,
        redirect_pc: w.redirect_pc,
        fence: w.fence,
        valid,
        pc,
        word,
        error,
    }
}

/// Makes the registers of the part, and answers the number of the first: four for each place, then the others. It takes no memory.
pub(crate) fn make_regs(b: &mut Builder, depth: u32, reset_pc: u32) -> u32
    requires room { 4 * depth + 5 ≤ b.old.design.room }
    requires most { depth ≤ 4 }
    ensures first { result ≡ length b.old.design.regs }
    ensures few { length b.new.design.regs < 2 ^ 32 }
    ensures places { (i : ℕ) → i < depth → IsOpenPlace b.new.design b.old.entry (result + 4 * i) }
    ensures command { IsOpenCommand b.new.design b.old.entry (result + 4 * depth) reset_pc }
    ensures makes { MakesRegs (4 * depth + 5) b.old b.new }
{
    let first = b.regs().len() as u32;
    make_places(b, depth);
    make_command(b, reset_pc);
    let _rows = b.regs();
    first
}
