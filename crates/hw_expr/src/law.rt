ghost use Rattle.std.specs.Prelude.{◌≡◌, ℕ, ◌-◌, ◌<◌, ◌≤◌, ◌^◌, ltb};
ghost use Rattle.core_words.specs.Values.{add_of, one_if};
ghost use Rattle.hw_pool.specs.Nodes.{PoolValue};
ghost use Rattle.hw_pool.specs.Trees.{tree_of};
ghost use Rattle.hw_pool.specs.Meaning.{Env, Within};
ghost use Rattle.hw_expr.specs.Nets.{IsNet, net_value};
ghost use Rattle.hw_expr.specs.Signed.{lts_of};

use crate::Net;

/// The law of widths: a net's value is below 2 ^ its width, where what its tree takes from outside is within
/// its width.
pub fn bound()
    ensures { (env : Env) (pool : PoolValue) (net : Net) → IsNet pool net → Within env (tree_of pool.nodes net.id.0) → net_value env pool net < 2 ^ net.width }
{}

/// The law of signs: numbers of a width compare as two's complement as they do unsigned once both are moved
/// up by half of the range, which takes the least negative number to 0.
pub fn signed_order()
    ensures { (w a b : ℕ) → 1 ≤ w → a < 2 ^ w → b < 2 ^ w → lts_of w a b ≡ one_if (ltb (add_of w a (2 ^ (w - 1))) (add_of w b (2 ^ (w - 1)))) }
{}
