ghost use Rattle.std.specs.Prelude.{◌≡◌, ℕ, ◌+◌, ◌<◌, ◌≤◌, ◌^◌, [], List, length};
ghost use Rattle.hw_pool.specs.declared.node.Node.{Node};
ghost use Rattle.hw_gates.specs.Places.{Step};
ghost use Rattle.hw_module.specs.Rows.{reg_at, wire_at};
ghost use Rattle.hw_module.specs.Scope.{scope_of};
ghost use Rattle.plug_law.specs.Pipeline.{Shape};
ghost use Rattle.service_ports.specs.declared.ports.ExecOffer.{ExecOffer};
ghost use Rattle.part_laws.specs.Joined.{Services};
ghost use Rattle.pipe_build.specs.Bears.{Bears};
ghost use Rattle.pipe_build.specs.Known.{AreRegs, AreWires, IsSlot};
ghost use Rattle.pipe_build.specs.Made.{HasRegs, HasSlot, HasWires};
ghost use Rattle.pipe_steps.specs.Numbers.{own_from, things_from, wires_from};

use crate::nets::{RegNets, SlotNets, WireNets};
use hw_expr::Net;
use hw_module::Module;
use hw_pool::Pool;

/// The value of a register.
pub(crate) fn read_reg(m: &Module, pool: &mut Pool, reg: u32) -> Net
    requires spare { 1 ≤ pool.old.spare }
    requires there { reg < length m.now.regs }
    ensures bears { Bears (scope_of m.now) pool.new (reg_at m.now.regs reg).width 0 (λ env. env.regs reg) result }
    ensures step { Step pool.old pool.new 1 }
{
    m.reg_net(pool, reg)
}

/// The value of a forward wire.
pub(crate) fn read_wire(m: &Module, pool: &mut Pool, wire: u32) -> Net
    requires spare { 1 ≤ pool.old.spare }
    requires there { wire < length m.now.wires }
    ensures bears { Bears (scope_of m.now) pool.new (wire_at m.now.wires wire).width (wire_at m.now.wires wire).level (λ env. env.wires wire) result }
    ensures step { Step pool.old pool.new 1 }
{
    m.wire_net(pool, wire)
}

/// The registers of the item in front.
fn slot_nets(m: &Module, pool: &mut Pool, first: u32) -> SlotNets
    requires spare { 9 ≤ pool.old.spare }
    requires few { first + 15 < 2 ^ 32 }
    requires rows { HasSlot m.now (own_from first [] 0) }
    ensures slot { (nodes : List Node) (execs : List ExecOffer) (x : Services) (sh : Shape) → (wire : ℕ) → IsSlot (scope_of m.now) pool.new (things_from nodes wire first execs x sh) result }
    ensures step { Step pool.old pool.new 9 }
{
    let pc = read_reg(m, pool, first + 6);
    let word = read_reg(m, pool, first + 7);
    let error = read_reg(m, pool, first + 8);
    let legal = read_reg(m, pool, first + 9);
    let row = read_reg(m, pool, first + 10);
    let except = read_reg(m, pool, first + 11);
    let writes = read_reg(m, pool, first + 12);
    let left = read_reg(m, pool, first + 13);
    let right = read_reg(m, pool, first + 14);
    SlotNets {
        pc,
        word,
        error,
        legal,
        row,
        except,
        writes,
        a: left,
        b: right,
    }
}

/// The pipeline's registers, but for those of units and of results on their way.
pub(crate) fn reg_nets(m: &Module, pool: &mut Pool, first: u32) -> RegNets
    requires spare { 15 ≤ pool.old.spare }
    requires few { first + 15 < 2 ^ 32 }
    requires rows { HasRegs m.now (own_from first [] 0) }
    ensures regs { (nodes : List Node) (execs : List ExecOffer) (x : Services) (sh : Shape) → (wire : ℕ) → AreRegs (scope_of m.now) pool.new (things_from nodes wire first execs x sh) result }
    ensures step { Step pool.old pool.new 15 }
{
    let apc = read_reg(m, pool, first);
    let flush = read_reg(m, pool, first + 1);
    let flush_fence = read_reg(m, pool, first + 2);
    let started = read_reg(m, pool, first + 3);
    let stopped = read_reg(m, pool, first + 4);
    let valid = read_reg(m, pool, first + 5);
    let slot = slot_nets(m, pool, first);
    RegNets {
        apc,
        flush,
        flush_fence,
        started,
        stopped,
        valid,
        slot,
    }
}

/// The pipeline's own forward wires.
pub(crate) fn wire_nets(m: &Module, pool: &mut Pool, first: u32) -> WireNets
    requires spare { 8 ≤ pool.old.spare }
    requires few { first + 8 < 2 ^ 32 }
    requires rows { HasWires m.now (wires_from first) }
    ensures wires { (nodes : List Node) (execs : List ExecOffer) (x : Services) (sh : Shape) → (reg : ℕ) → AreWires (scope_of m.now) pool.new (things_from nodes first reg execs x sh) result }
    ensures step { Step pool.old pool.new 8 }
{
    let kill = read_wire(m, pool, first);
    let irq = read_wire(m, pool, first + 1);
    let run = read_wire(m, pool, first + 2);
    let ends = read_wire(m, pool, first + 3);
    let retires = read_wire(m, pool, first + 4);
    let traps = read_wire(m, pool, first + 5);
    let writes = read_wire(m, pool, first + 6);
    let enters = read_wire(m, pool, first + 7);
    WireNets {
        kill,
        irq,
        run,
        ends,
        retires,
        traps,
        writes,
        enters,
    }
}
