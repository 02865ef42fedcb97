ghost use Rattle.std.specs.Prelude.{◌≡◌, ℕ, ◌+◌, ◌*◌, ◌≤◌, ◌<◌, ◌^◌, ◌⊎◌, [], ◌∷◌, Bool, List, Some, length};
ghost use Rattle.hw_module.specs.Rights.{Rights};
ghost use Rattle.hw_module.specs.Scope.{scope_of};
ghost use Rattle.hw_module.specs.Checked.{DriversFit};
ghost use Rattle.hw_module.specs.Rows.{reg_at};
ghost use Rattle.hw_module.specs.declared.rows.Owner.TheVariants.{Entry};
ghost use Rattle.hw_pool.specs.Meaning.{Env};
ghost use Rattle.hw_gates.specs.Places.{Is, IsIn, Step, value_in};
ghost use Rattle.plug_api.specs.Spec.{is_among};
ghost use Rattle.plug_build.specs.Done.{AreOpen, OwnsNothing};
ghost use Rattle.plug_build.specs.Fits.{AreInputs, WorldFits};
ghost use Rattle.plug_build.specs.World.{Builds, part_in, world_of};
ghost use Rattle.plug_kit.specs.Made.{exec_list};
ghost use Rattle.plug_part.specs.Owned.{offers};
ghost use Rattle.service_ports.specs.Ports.{input_shapes};
ghost use Rattle.service_ports.specs.Registry.{OffersBy};
ghost use Rattle.service_reg.specs.declared.service.Service.TheVariants.{Exec};
ghost use Rattle.service_reg.specs.declared.service.Service.{Service};
ghost use Rattle.unit_steps.specs.Cycles.{Machine};
ghost use Rattle.unit_steps.specs.Registers.{AreDrivenRegs, AreOpenRegs, DrivesRegs, IsOpenReg, MakesRegs, held_in};
ghost use Rattle.unit_steps.specs.Parts.{BuildsWorking};

use crate::mark::{drive_mark, make_mark};
use crate::ports::working_ports;
use hw_expr::Net;
use hw_pool::Pool;
use plug_build::Builder;
use plug_kit::{ExecInputs, exec_inputs};
use service_ports::Registry;

/// The nets that such a unit has for its outputs.
#[derive(Clone, Copy, Debug, PartialEq, Eq)]
pub struct WorkNets {
    /// One bit, 1 in the last cycle of an instruction.
    pub ends: Net,
    /// The value then, 32 bits.
    pub value: Net,
}

/// A unit that may work for several cycles on an instruction, and never traps.
pub trait Works {
    /// What it does in each cycle.
    ghost machine: { Self → Machine };

    /// The widths of its registers.
    ghost widths: { Self → List ℕ };

    /// How many nodes its circuit may make.
    ghost nodes: { Self → ℕ };

    /// Makes its registers. It takes no memory.
    fn registers(&self, b: &mut Builder)
        requires room { length (widths self.now) ≤ b.old.design.room }
        ensures regs { AreOpenRegs b.new.design b.old.entry (length b.old.design.regs) (widths self.now) }
        ensures makes { MakesRegs (length (widths self.now)) b.old b.new };

    /// Its circuit over the inputs of Exec and its registers, which stand behind the register `mark` of one bit: that is 1 where an
    /// instruction is at work as a cycle begins. It gives each of its registers its next value. It takes no memory.
    fn circuit(&self, b: &mut Builder, pool: &mut Pool, w: ExecInputs, mark: u32) -> WorkNets
        requires room { length (widths self.now) ≤ b.old.design.room }
        requires spare { nodes self.now ≤ pool.old.spare }
        requires few { length b.old.design.regs < 2 ^ 32 }
        requires inputs { AreInputs b.old.design b.old.entry (exec_list w) (input_shapes Exec) }
        requires mark { IsOpenReg b.old.design b.old.entry mark 1 (Some 0) }
        requires regs { AreOpenRegs b.old.design b.old.entry (mark + 1) (widths self.now) }
        requires drivers { DriversFit b.old.design pool.old }
        ensures ends { (env : Env) → value_in env pool.new result.ends
            ≡ (machine self.now).ends (env.wires w.word) (env.wires w.a) (env.wires w.b) (env.regs mark) (held_in env (mark + 1) (length (widths self.now))) }
        ensures value { (env : Env) → value_in env pool.new result.value
            ≡ (machine self.now).value (env.wires w.word) (env.wires w.a) (env.wires w.b) (env.regs mark) (held_in env (mark + 1) (length (widths self.now))) }
        ensures ends_net { Is pool.new result.ends 1 4 }
        ensures value_net { Is pool.new result.value 32 4 }
        ensures ends_scope { IsIn (scope_of b.old.design) pool.new result.ends }
        ensures value_scope { IsIn (scope_of b.old.design) pool.new result.value }
        ensures driven { AreDrivenRegs b.new.design pool.new b.old.entry (mark + 1) (widths self.now)
            (λ env. (machine self.now).next (env.wires w.word) (env.wires w.a) (env.wires w.b) (env.regs mark) (held_in env (mark + 1) (length (widths self.now)))) }
        ensures others { (k : ℕ) → (k < mark + 1) ⊎ (mark + 1 + length (widths self.now) ≤ k) → reg_at b.new.design.regs k ≡ reg_at b.old.design.regs k }
        ensures drives { DrivesRegs (length (widths self.now)) b.old b.new }
        ensures drivers { DriversFit b.new.design pool.new }
        ensures step { Step pool.old pool.new (nodes self.now) };
}

/// Builds such a unit, all in the first call of its entry: makes its inputs, its mark and its registers, drives these, and offers
/// Exec. It takes no memory.
pub fn build_working_unit<W: Works>(unit: &W, b: &mut Builder, pool: &mut Pool, reg: &mut Registry)
    requires fits { WorldFits (world_of pool.old b.old reg.old) }
    requires nothing { OwnsNothing b.old.entry (world_of pool.old b.old reg.old) }
    requires room { 9 + 2 * length (W.widths unit.now) ≤ b.old.design.room }
    requires spare { W.nodes unit.now + 14 ≤ pool.old.spare }
    requires offer { 1 ≤ reg.old.room }
    ensures entry { b.new.entry ≡ b.old.entry }
    ensures fits { WorldFits (world_of pool.new b.new reg.new) }
    ensures adds { (r : Rights) (most : ℕ) → W.nodes unit.now + 2 * length (W.widths unit.now) + 23 ≤ most → Builds (Entry b.old.entry) r most
        (world_of pool.old b.old reg.old) (world_of pool.new b.new reg.new) }
    ensures offers { OffersBy b.old.entry reg.old reg.new }
    ensures offered { (s : Service) → offers reg.new b.old.entry s ≡ is_among (Exec ∷ []) s }
    ensures once { length reg.new.execs ≤ length reg.old.execs + 1 }
    ensures offer { reg.old.room ≤ reg.new.room + 1 }
    ensures open { AreOpen b.old.entry (world_of pool.new b.new reg.new) }
    ensures begun { (takes : Service → Bool) → BuildsWorking (W.machine unit.now) (W.widths unit.now) (part_in takes b.old.entry (world_of pool.new b.new reg.new)) }
{
    let wires = exec_inputs(b);
    let mark = make_mark(b);
    unit.registers(b);
    let _few = b.regs();
    let nets = unit.circuit(b, pool, wires, mark);
    drive_mark(b, pool, wires, mark, nets.ends);
    let ports = working_ports(b, pool, wires, nets);
    reg.offer_exec(b.entry(), ports);
}
