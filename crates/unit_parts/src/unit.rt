ghost use Rattle.std.specs.Prelude.{◌≡◌, ℕ, ◌+◌, ◌≤◌, [], ◌∷◌, Bool, length};
ghost use Rattle.hw_module.specs.Rights.{Rights};
ghost use Rattle.hw_module.specs.Scope.{scope_of};
ghost use Rattle.hw_module.specs.declared.rows.Owner.TheVariants.{Entry};
ghost use Rattle.hw_pool.specs.Meaning.{Env};
ghost use Rattle.hw_gates.specs.Places.{Is, IsIn, Step, value_in};
ghost use Rattle.plug_api.specs.Spec.{is_among};
ghost use Rattle.plug_build.specs.Done.{AreOpen, OwnsNothing};
ghost use Rattle.plug_build.specs.Fits.{AreInputs, WorldFits};
ghost use Rattle.plug_build.specs.World.{Builds, part_in, world_of};
ghost use Rattle.plug_kit.specs.Made.{exec_list};
ghost use Rattle.plug_part.specs.Owned.{offers};
ghost use Rattle.service_ports.specs.Ports.{input_shapes};
ghost use Rattle.service_ports.specs.Registry.{OffersBy};
ghost use Rattle.service_reg.specs.declared.service.Service.TheVariants.{Exec};
ghost use Rattle.service_reg.specs.declared.service.Service.{Service};
ghost use Rattle.unit_parts.specs.Computing.{BuildsComputing};

use crate::computing_ports;
use hw_expr::Net;
use hw_pool::Pool;
use plug_build::Builder;
use plug_kit::{ExecInputs, exec_inputs};
use service_ports::Registry;

/// A unit that is done at once with a value of its word, its pc and its operands, and never traps.
pub trait Computes {
    /// The value.
    ghost value_of: { Self → (word pc a b : ℕ) → ℕ };

    /// How many nodes its circuit may make.
    ghost nodes: { Self → ℕ };

    /// The net of the value over the inputs of Exec, of 32 bits. It takes no memory.
    fn value(&self, b: &Builder, pool: &mut Pool, w: ExecInputs) -> Net
        requires spare { nodes self.now ≤ pool.old.spare }
        requires inputs { AreInputs b.now.design b.now.entry (exec_list w) (input_shapes Exec) }
        ensures value { (env : Env) → value_in env pool.new result ≡ value_of self.now (env.wires w.word) (env.wires w.pc) (env.wires w.a) (env.wires w.b) }
        ensures net { Is pool.new result 32 4 }
        ensures scope { IsIn (scope_of b.now.design) pool.new result }
        ensures step { Step pool.old pool.new (nodes self.now) };
}

/// Builds such a unit, all in the first call of its entry: makes its inputs and its outputs, and offers Exec. It takes no memory.
pub fn build_unit<C: Computes>(unit: &C, b: &mut Builder, pool: &mut Pool, reg: &mut Registry)
    requires fits { WorldFits (world_of pool.old b.old reg.old) }
    requires nothing { OwnsNothing b.old.entry (world_of pool.old b.old reg.old) }
    requires room { 7 ≤ b.old.design.room }
    requires spare { C.nodes unit.now + 6 ≤ pool.old.spare }
    requires offer { 1 ≤ reg.old.room }
    ensures entry { b.new.entry ≡ b.old.entry }
    ensures fits { WorldFits (world_of pool.new b.new reg.new) }
    ensures adds { (r : Rights) (most : ℕ) → C.nodes unit.now + 13 ≤ most → Builds (Entry b.old.entry) r most
        (world_of pool.old b.old reg.old) (world_of pool.new b.new reg.new) }
    ensures offers { OffersBy b.old.entry reg.old reg.new }
    ensures offered { (s : Service) → offers reg.new b.old.entry s ≡ is_among (Exec ∷ []) s }
    ensures once { length reg.new.execs ≤ length reg.old.execs + 1 }
    ensures offer { reg.old.room ≤ reg.new.room + 1 }
    ensures open { AreOpen b.old.entry (world_of pool.new b.new reg.new) }
    ensures begun { (takes : Service → Bool) → BuildsComputing (C.value_of unit.now) (part_in takes b.old.entry (world_of pool.new b.new reg.new)) }
{
    let wires = exec_inputs(b);
    let value = unit.value(b, pool, wires);
    let ports = computing_ports(b, pool, wires, value);
    reg.offer_exec(b.entry(), ports);
}
