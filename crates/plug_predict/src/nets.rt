ghost use Rattle.std.specs.Prelude.{◌≡◌, ℕ, ◌≤◌};
ghost use Rattle.hw_pool.specs.Meaning.{Env};
ghost use Rattle.hw_gates.specs.Places.{Step, value_in};
ghost use Rattle.service_reg.specs.declared.service.Service.TheVariants.{Predict};
ghost use Rattle.service_ports.specs.Ports.{input_shapes, output_level, output_widths, predict_ports};
ghost use Rattle.plug_build.specs.Fits.{AreInputs, AreOutputs};
ghost use Rattle.plug_kit.specs.Made.{predict_list};
ghost use Rattle.plug_predict.specs.Machine.{guess_of};

use crate::Style;
use crate::circuit::guess;
use hw_pool::Pool;
use plug_build::Builder;
use plug_kit::{PredictInputs, wire_net};
use service_ports::PredictPorts;

/// The ports of Predict over its inputs.
pub(crate) fn predict_nets(
    b: &Builder,
    pool: &mut Pool,
    w: PredictInputs,
    style: Style,
) -> PredictPorts
    requires spare { 54 ≤ pool.old.spare }
    requires inputs { AreInputs b.now.design b.now.entry (predict_list w) (input_shapes Predict) }
    ensures inputs { (predict_ports result).inputs ≡ predict_list w }
    ensures outputs { AreOutputs b.now.design pool.new (output_level Predict) (predict_ports result).outputs (output_widths Predict) }
    ensures next { (env : Env) → value_in env pool.new result.next ≡ guess_of style (env.wires w.pc) (env.wires w.word) }
    ensures step { Step pool.old pool.new 54 }
{
    let pc = wire_net(b, pool, w.pc);
    let word = wire_net(b, pool, w.word);
    let next = guess(pool, style, pc, word);
    PredictPorts {
        pc: w.pc,
        word: w.word,
        next,
    }
}
