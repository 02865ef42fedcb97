ghost use Rattle.std.specs.Prelude.{◌≡◌, ℕ, ◌≤◌};
ghost use Rattle.hw_pool.specs.Meaning.{Env};
ghost use Rattle.hw_gates.specs.Places.{Step, value_in};
ghost use Rattle.hw_module.specs.Scope.{scope_of};
ghost use Rattle.service_reg.specs.declared.service.Service.TheVariants.{Hazard};
ghost use Rattle.service_ports.specs.Ports.{hazard_ports, input_shapes, output_level, output_widths};
ghost use Rattle.plug_build.specs.Fits.{AreInputs, AreOutputs, IsInput};
ghost use Rattle.plug_kit.specs.Made.{hazard_list, stage_list, stage_shapes};
ghost use Rattle.plug_hazard.specs.Builds.{a_in, b_in, hold_in};
ghost use Rattle.plug_hazard.specs.Nets.{IsStage, IsStageIn, now_over, told_in, told_over};

use crate::circuit::{Stage, choose_operand, hold};
use hw_pool::Pool;
use plug_build::Builder;
use plug_kit::{HazardInputs, wire_net};
use service_ports::{HazardPorts, HazardStage};

/// What a stage shows, from its inputs.
fn stage_nets(b: &Builder, pool: &mut Pool, w: HazardStage) -> Stage
    requires spare { 4 ≤ pool.old.spare }
    requires inputs { AreInputs b.now.design b.now.entry (stage_list w) stage_shapes }
    ensures net { IsStage pool.new result }
    ensures scope { IsStageIn (scope_of b.now.design) pool.new result }
    ensures told { (env : Env) → told_in env pool.new result ≡ told_over w env }
    ensures step { Step pool.old pool.new 4 }
{
    let writes = wire_net(b, pool, w.writes);
    let rd = wire_net(b, pool, w.rd);
    let ready = wire_net(b, pool, w.ready);
    let value = wire_net(b, pool, w.value);
    Stage {
        writes,
        rd,
        ready,
        value,
    }
}

/// The outputs of the part over its inputs and the two forward wires on which RegFile's outputs are to stand.
pub(crate) fn hazard_nets(
    b: &Builder,
    pool: &mut Pool,
    w: HazardInputs,
    wire_a: u32,
    wire_b: u32,
    bypass: bool,
) -> HazardPorts
    requires spare { 65 ≤ pool.old.spare }
    requires inputs { AreInputs b.now.design b.now.entry (hazard_list w) (input_shapes Hazard) }
    requires wire_a { IsInput b.now.design b.now.entry wire_a (32, 3) }
    requires wire_b { IsInput b.now.design b.now.entry wire_b (32, 3) }
    ensures inputs { (hazard_ports result).inputs ≡ hazard_list w }
    ensures outputs { AreOutputs b.now.design pool.new (output_level Hazard) (hazard_ports result).outputs (output_widths Hazard) }
    ensures hold { (env : Env) → value_in env pool.new result.hold ≡ hold_in (λ i. bypass) (now_over w wire_a wire_b env) }
    ensures a { (env : Env) → value_in env pool.new result.a ≡ a_in (λ i. bypass) (now_over w wire_a wire_b env) }
    ensures b { (env : Env) → value_in env pool.new result.b ≡ b_in (λ i. bypass) (now_over w wire_a wire_b env) }
    ensures step { Step pool.old pool.new 65 }
{
    let first = stage_nets(b, pool, w.first);
    let second = stage_nets(b, pool, w.second);
    let third = stage_nets(b, pool, w.third);
    let ra = wire_net(b, pool, w.ra);
    let rb = wire_net(b, pool, w.rb);
    let uses_a = wire_net(b, pool, w.uses_a);
    let uses_b = wire_net(b, pool, w.uses_b);
    let plain_a = wire_net(b, pool, wire_a);
    let plain_b = wire_net(b, pool, wire_b);
    let stages = ((first, bypass), (second, bypass), (third, bypass));
    let left = choose_operand(pool, ra, plain_a, stages.0, stages.1, stages.2);
    let right = choose_operand(pool, rb, plain_b, stages.0, stages.1, stages.2);
    let hold = hold(pool, uses_a, left, uses_b, right);
    HazardPorts {
        first: w.first,
        second: w.second,
        third: w.third,
        ra: w.ra,
        rb: w.rb,
        uses_a: w.uses_a,
        uses_b: w.uses_b,
        hold,
        a: left.value,
        b: right.value,
    }
}
