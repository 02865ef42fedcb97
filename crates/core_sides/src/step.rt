ghost use Rattle.std.specs.Prelude.{◌≡◌, IsTrue, length};
ghost use Rattle.hw_module.specs.Checked.{IsChecked};
ghost use Rattle.hw_cycle.specs.Inputs.{AreWithin};
ghost use Rattle.core_sides.specs.Made.{IsOf};

use hw_cycle::Cycle;
use hw_module::Module;
use hw_pool::Pool;
use verilog_sim::TreeSim;

/// A module with the pool that its nets are of.
#[derive(Drop)]
pub(crate) struct Joined {
    pub(crate) circuit: Module,
    pub(crate) pool: Pool,
}

/// The inputs of a core, in the order of the ports, are below these.
const LIMITS: [u64; 13] = [2, 2, 2, 2, 2, 4294967296, 2, 2, 2, 4294967296, 2, 2, 2];

/// Whether each input is within its port's width.
#[tactic(auto, using(crate::proofs::Limits::within_of))]
fn are_within(ins: &[u64]) -> bool
    requires { length ins.now ≡ 13 }
    ensures { IsTrue result → AreWithin ins.now }
{
    for k in 0..13 {
        if ins[k] >= LIMITS[k] {
            return false;
        }
    }
    true
}

/// Steps a module and the simulator of its text, and answers whether all outputs are equal.
pub(crate) fn step_both(
    core: &Joined,
    cycle: &mut Cycle,
    sim: &mut TreeSim,
    ins: &Vec<u64>,
    ours: &mut Vec<u64>,
    theirs: &mut Vec<u64>,
) -> bool
    requires checked { IsChecked core.now.circuit core.now.pool }
    requires made { IsOf cycle.old core.now.circuit core.now.pool }
    ensures made { IsOf cycle.new core.now.circuit core.now.pool }
{
    if ins.len() != 13 || ours.len() != 17 || !are_within(ins.as_slice()) {
        return false;
    }
    if sim.flat.ins != 13 || sim.flat.outs.len() != theirs.len() {
        return false;
    }
    cycle.step(&core.circuit, &core.pool, ins, ours);
    sim.step(ins.as_slice(), theirs);
    ours.as_slice() == theirs.as_slice()
}
