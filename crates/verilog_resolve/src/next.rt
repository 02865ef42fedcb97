ghost use Rattle.std.specs.Prelude.{◌≡◌, ℕ, List, ◌+◌, ◌^◌, ◌<◌, ◌≤◌, IfOk, get_or, length, vec_len};
ghost use Rattle.core_words.specs.Values.{choose};
ghost use Rattle.verilog_mean.specs.Cycle.{eval, reset_name};
ghost use Rattle.verilog_mean.specs.Erase.{plain};
ghost use Rattle.verilog_flat.specs.Builds.{IsSameRoom};
ghost use Rattle.verilog_flat.specs.Flat.{values};
ghost use Rattle.verilog_resolve.specs.Fine.{IsFine};
ghost use Rattle.verilog_resolve.specs.Means.{Matches};
ghost use Rattle.verilog_resolve.specs.Names.{IsIn, IsNet, places};

use crate::expr::flatten;
use crate::names::{Names, Place};
use std::alloc::AllocError;
use verilog_flat::{Build, Node};
use verilog_tree::Expr;

/// Appends the nodes of the next value of a register with a reset, and answers the one that has it:
/// `start` while `reset` is 1, else its driver's value.
pub fn push_restart(
    start: u64,
    driver: &Expr,
    names: &Names,
    build: &mut Build,
) -> Result<u32, AllocError>
    requires fine { IsFine (places names.now) (plain driver.now) }
    requires reset { IsNet (places names.now reset_name) }
    requires scope { (x : List ℕ) → IsIn (vec_len build.old.nodes) build.old.cells (places names.now x) }
    ensures value { IfOk result (λ at. (regs cells ins : List ℕ) (w : List ℕ → ℕ) (arrays : List ℕ → List ℕ) (val : List ℕ → ℕ)
        → ((x : List ℕ) → Matches regs cells ins w arrays val build.old.nodes.items x (places names.now x))
        → get_or (values regs cells ins build.new.nodes.items) at 0 ≡ choose (val reset_name) start (eval w arrays val (plain driver.now))) }
    ensures keeps { IfOk result (λ at. (regs cells ins : List ℕ) (w : List ℕ → ℕ) (arrays : List ℕ → List ℕ) (val : List ℕ → ℕ)
        → ((x : List ℕ) → Matches regs cells ins w arrays val build.old.nodes.items x (places names.now x))
        → (x : List ℕ) → Matches regs cells ins w arrays val build.new.nodes.items x (places names.now x)) }
    ensures kept { IfOk result (λ at. (regs cells ins : List ℕ) (w : List ℕ → ℕ) (arrays : List ℕ → List ℕ) (val : List ℕ → ℕ)
        → ((x : List ℕ) → Matches regs cells ins w arrays val build.old.nodes.items x (places names.now x))
        → (j : ℕ) → j < length build.old.nodes.items → get_or (values regs cells ins build.new.nodes.items) j 0 ≡ get_or (values regs cells ins build.old.nodes.items) j 0) }
    ensures within { IfOk result (λ at. at < vec_len build.new.nodes) }
    ensures longer { IfOk result (λ at. vec_len build.old.nodes ≤ vec_len build.new.nodes) }
    ensures scope { IfOk result (λ at. (x : List ℕ) → IsIn (vec_len build.new.nodes) build.new.cells (places names.now x)) }
    ensures same { IsSameRoom build.new build.old }
{
    let other = flatten(driver, names, build)?;
    match names.place("reset") {
        Place::Net { node: test, .. } => {
            let first = build.push(Node::Literal { value: start })?;
            let at = build.push(Node::Choice {
                test,
                first,
                other: other.at,
            })?;
            Ok(at)
        }
        _ => unreachable!(),
    }
}
