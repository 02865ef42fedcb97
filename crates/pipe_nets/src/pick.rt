ghost use Rattle.std.specs.Prelude.{◌≡◌, ◌+◌, ◌*◌, ◌≤◌, length};
ghost use Rattle.hw_pool.specs.Meaning.{Env};
ghost use Rattle.hw_pool.specs.Scope.{Scope};
ghost use Rattle.hw_gates.specs.Places.{Is, IsIn, Step, value_in};
ghost use Rattle.pipe_nets.specs.Picks.{ArePicks, ArePicksIn, gathered, picks_in};

use hw_expr::Net;
use hw_gates::{lit, mux, or};
use hw_pool::Pool;

/// One of several: its output, and one bit that is 1 where it is the chosen one.
#[derive(Clone, Copy, Debug)]
pub struct Pick {
    pub chosen: Net,
    pub output: Net,
}

/// The output of the chosen one, of this width: each is masked, and all are joined by "or"; 0 where none is chosen.
#[tactic(auto, unfolding(crate::specs::Picks::gathered))]
pub fn gather(pool: &mut Pool, picks: &[Pick], width: u32) -> Net
    requires spare { 3 * length picks.now + 1 ≤ pool.old.spare }
    requires least { 1 ≤ width }
    requires most { width ≤ 64 }
    requires picks { ArePicks pool.old width 4 picks.now }
    ensures value_is { (env : Env) → value_in env pool.new result ≡ gathered (picks_in env pool.old picks.now) }
    ensures net { Is pool.new result width 4 }
    ensures scope { (s : Scope) → ArePicksIn s pool.old picks.now → IsIn s pool.new result }
    ensures step { Step pool.old pool.new (3 * length picks.now + 1) }
{
    match picks {
        [] => lit(pool, width, 0),
        [first, rest @ ..] => {
            let others = gather(pool, rest, width);
            let zero = lit(pool, width, 0);
            let own = mux(pool, first.chosen, first.output, zero);
            or(pool, own, others)
        }
    }
}
