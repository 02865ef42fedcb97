ghost use Rattle.std.specs.Prelude.{◌≡◌, ℕ, ◌+◌, ◌<◌, ◌≤◌, ◌^◌, length};
ghost use Rattle.hw_gates.specs.Places.{Step};
ghost use Rattle.hw_module.specs.Scope.{scope_of};
ghost use Rattle.service_reg.specs.declared.service.Service.TheVariants.{Fetch};
ghost use Rattle.service_ports.specs.Ports.{fetch_ports, input_shapes};
ghost use Rattle.plug_build.specs.Fits.{AreInputs, OffersFit};
ghost use Rattle.plug_icache.specs.Late.{ReadsCycle, predict_in};
ghost use Rattle.plug_icache.specs.Registers.{AreOpenArrays, AreOpenRegs};

use crate::predict::guess_net;
use crate::read::{read_coming, read_four, read_tag, read_word};
use cache_nets::{Cycle, Held, Sizes};
use hw_pool::Pool;
use plug_build::Builder;
use service_ports::{FetchPorts, Registry};

/// Reads what the part takes in a cycle: its registers, from `first` on, what comes, the arrays under the pc that is looked up, from
/// `tags` on, and the pc behind its item.
pub(crate) fn read_cycle(
    b: &Builder,
    pool: &mut Pool,
    reg: &Registry,
    ports: FetchPorts,
    z: Sizes,
    first: u32,
    tags: u32,
) -> Cycle
    requires spare { 32 ≤ pool.old.spare }
    requires few { length b.now.design.regs < 2 ^ 32 }
    requires few_arrays { length b.now.design.arrays < 2 ^ 32 }
    requires index { 1 ≤ z.index }
    requires few_lines { z.index ≤ 10 }
    requires place { 1 ≤ z.place }
    requires few_words { z.place ≤ 4 }
    requires offers { OffersFit b.now.design pool.old reg.now }
    requires regs { (reset_pc : ℕ) × AreOpenRegs b.now.design b.now.entry first z.index z.place reset_pc }
    requires arrays { AreOpenArrays b.now.design b.now.entry tags z.index z.place }
    requires inputs { AreInputs b.now.design b.now.entry (fetch_ports ports).inputs (input_shapes Fetch) }
    ensures reads { ReadsCycle pool.new (scope_of b.now.design) z.index z.place first tags ports (predict_in pool.old reg.now) result }
    ensures step { Step pool.old pool.new 32 }
{
    let front = read_four(b, pool, first);
    let reading = read_four(b, pool, first + 4);
    let caught = read_four(b, pool, first + 8);
    let item = read_four(b, pool, first + 12);
    let coming = read_coming(b, pool, ports);
    let tag = read_tag(b, pool, z, tags, front.first);
    let cell = read_word(b, pool, z, tags, front.first);
    let guess = guess_net(b, pool, reg, front.first);
    let held = Held {
        pc: front.first,
        walk: front.second,
        given: front.third,
        owed: front.fourth,
        dropped: reading.first,
        line: reading.second,
        place: reading.third,
        bad: reading.fourth,
        wanted: caught.first,
        captured: caught.second,
        captured_word: caught.third,
        captured_error: caught.fourth,
        full: item.first,
        out_pc: item.second,
        out_word: item.third,
        out_error: item.fourth,
    };
    Cycle {
        held,
        coming,
        tag,
        cell,
        guess,
    }
}
