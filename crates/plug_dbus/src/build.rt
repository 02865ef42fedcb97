ghost use Rattle.std.specs.Prelude.{◌≡◌, ℕ, ◌<◌, ◌≤◌, ◌^◌, length};
ghost use Rattle.hw_gates.specs.Places.{Step};
ghost use Rattle.hw_module.specs.Checked.{DriversFit};
ghost use Rattle.service_reg.specs.declared.service.Service.TheVariants.{Exec};
ghost use Rattle.service_ports.specs.Ports.{exec_ports, input_shapes, output_level, output_widths};
ghost use Rattle.plug_build.specs.Fits.{AreInputs, AreOutputs};
ghost use Rattle.plug_kit.specs.Made.{exec_list};
ghost use Rattle.plug_dbus.specs.Built.{DrivesAll, HasCommand, HasNexts, ShowsOuts};
ghost use Rattle.plug_dbus.specs.Registers.{AreClear, AreOpen};

use crate::command::give_command;
use crate::read::read_cycle;
use crate::regs::move_regs;
use crate::unit::{access_nets, next_nets, out_nets};
use hw_pool::Pool;
use plug_build::Builder;
use plug_kit::ExecInputs;
use service_ports::ExecPorts;

/// Builds the circuit over the inputs and the registers, which are numbered from `first` on: gives these their next values, drives the
/// command on the data bus, and answers the ports of Exec.
pub(crate) fn build_all(b: &mut Builder, pool: &mut Pool, w: ExecInputs, first: u32) -> ExecPorts
    requires room { 11 ≤ b.old.design.room }
    requires spare { 140 ≤ pool.old.spare }
    requires few { length b.old.design.regs < 2 ^ 32 }
    requires are_open { AreOpen b.old.design b.old.entry first }
    requires inputs { AreInputs b.old.design b.old.entry (exec_list w) (input_shapes Exec) }
    requires clear { AreClear b.old.design }
    requires drivers { DriversFit b.old.design pool.old }
    ensures inputs { (exec_ports result).inputs ≡ exec_list w }
    ensures outputs { AreOutputs b.new.design pool.new (output_level Exec) (exec_ports result).outputs (output_widths Exec) }
    ensures shows { ShowsOuts pool.new first (exec_list w) result }
    ensures nexts { HasNexts b.new.design pool.new b.old.entry first (exec_list w) }
    ensures command { HasCommand b.new.design pool.new first }
    ensures drives { DrivesAll b.old b.new }
    ensures drivers { DriversFit b.new.design pool.new }
    ensures step { Step pool.old pool.new 140 }
{
    let c = read_cycle(b, pool, w, first);
    let x = access_nets(pool, c.given.word, c.given.a);
    let o = out_nets(pool, c, x);
    let n = next_nets(pool, c, x);
    move_regs(b, pool, first, n);
    give_command(b, pool, c.held);
    ExecPorts {
        go: w.go,
        row: w.row,
        pc: w.pc,
        word: w.word,
        a: w.a,
        b: w.b,
        clear: w.clear,
        done: o.done,
        value: o.value,
        next_pc: o.next_pc,
        trap: o.trap,
        cause: o.cause,
        tval: x.address,
        fence: o.fence,
    }
}
