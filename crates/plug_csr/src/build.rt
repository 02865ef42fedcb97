ghost use Rattle.std.specs.Prelude.{◌≡◌, ℕ, ◌<◌, ◌≤◌, ◌^◌, length};
ghost use Rattle.hw_gates.specs.Places.{Step};
ghost use Rattle.hw_module.specs.Checked.{DriversFit};
ghost use Rattle.service_reg.specs.declared.service.Service.TheVariants.{Exec, System};
ghost use Rattle.service_ports.specs.Ports.{exec_ports, input_shapes, output_level, output_widths, system_ports};
ghost use Rattle.plug_build.specs.Fits.{AreInputs, AreOutputs};
ghost use Rattle.plug_kit.specs.Made.{exec_list, system_list};
ghost use Rattle.plug_csr.specs.Built.{HasNexts, ShowsOuts};
ghost use Rattle.plug_csr.specs.Registers.{AreOpen, MovesRegs};

use crate::read::read_cycle;
use crate::regs::move_regs;
use csr_nets::unit_nets;
use hw_pool::Pool;
use plug_build::Builder;
use plug_kit::{ExecInputs, SystemInputs};
use service_ports::{ExecPorts, SystemPorts};

/// The ports of both services.
#[derive(Clone, Copy, Debug)]
pub(crate) struct Both {
    pub(crate) exec: ExecPorts,
    pub(crate) system: SystemPorts,
}

/// Builds the circuit over the inputs and the registers, which are numbered from `first` on: gives these their next values, and
/// answers the ports of both services. `misa` is what misa reads.
pub(crate) fn build_all(
    b: &mut Builder,
    pool: &mut Pool,
    misa: u64,
    w: ExecInputs,
    y: SystemInputs,
    first: u32,
) -> Both
    requires room { 10 ≤ b.old.design.room }
    requires spare { 258 ≤ pool.old.spare }
    requires misa { misa < 2 ^ 32 }
    requires few { length b.old.design.regs < 2 ^ 32 }
    requires are_open { AreOpen b.old.design b.old.entry first }
    requires inputs { AreInputs b.old.design b.old.entry (exec_list w) (input_shapes Exec) }
    requires told { AreInputs b.old.design b.old.entry (system_list y) (input_shapes System) }
    requires drivers { DriversFit b.old.design pool.old }
    ensures inputs { (exec_ports result.exec).inputs ≡ exec_list w }
    ensures told { (system_ports result.system).inputs ≡ system_list y }
    ensures outputs { AreOutputs b.new.design pool.new (output_level Exec) (exec_ports result.exec).outputs (output_widths Exec) }
    ensures system_outputs { AreOutputs b.new.design pool.new (output_level System) (system_ports result.system).outputs (output_widths System) }
    ensures shows { ShowsOuts pool.new misa first (exec_list w) (system_list y) result }
    ensures nexts { HasNexts b.new.design pool.new b.old.entry misa first (exec_list w) (system_list y) }
    ensures moves { MovesRegs 10 b.old b.new }
    ensures drivers { DriversFit b.new.design pool.new }
    ensures step { Step pool.old pool.new 258 }
{
    let c = read_cycle(b, pool, w, y, first);
    let x = unit_nets(pool, misa, c);
    move_regs(b, pool, first, x.nexts);
    Both {
        exec: ExecPorts {
            go: w.go,
            row: w.row,
            pc: w.pc,
            word: w.word,
            a: w.a,
            b: w.b,
            clear: w.clear,
            done: x.outs.done,
            value: x.value,
            next_pc: x.outs.next_pc,
            trap: x.outs.trap,
            cause: x.outs.cause,
            tval: c.given.word,
            fence: x.outs.fence,
        },
        system: SystemPorts {
            event: y.event,
            kind: y.kind,
            pc: y.pc,
            cause: y.cause,
            tval: y.tval,
            take_irq: x.pending.take,
            irq_cause: x.pending.cause,
            base: x.pending.base,
        },
    }
}
