ghost use Rattle.std.specs.Prelude.{◌≡◌, IsTrue, length};
ghost use Rattle.hw_cycle.specs.Inputs.{AreWithin};

/// The inputs of a core, in the order of the ports, are below these.
const LIMITS: [u64; 13] = [2, 2, 2, 2, 2, 4294967296, 2, 2, 2, 4294967296, 2, 2, 2];

/// Whether each input is within its port's width.
#[tactic(auto, using(crate::proofs::Limits::within_of))]
pub(crate) fn are_within(ins: &[u64]) -> bool
    requires { length ins.now ≡ 13 }
    ensures { IsTrue result → AreWithin ins.now }
{
    for k in 0..13 {
        if ins[k] >= LIMITS[k] {
            return false;
        }
    }
    true
}
