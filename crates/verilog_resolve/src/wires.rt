ghost use Rattle.std.specs.Prelude.{◌≡◌, ℕ, List, ◌+◌, ◌^◌, ◌≤◌, ◌∷◌, IfOk, vec_len};
ghost use Rattle.verilog_mean.specs.Cycle.{State};
ghost use Rattle.verilog_mean.specs.Order.{IsRanked};
ghost use Rattle.verilog_mean.specs.Plain.{Plain};
ghost use Rattle.verilog_mean.specs.Erase.{plain};
ghost use Rattle.verilog_flat.specs.declared.node.Node.{Node};
ghost use Rattle.verilog_resolve.specs.declared.driver.WireDriver.{WireDriver};
ghost use Rattle.verilog_resolve.specs.declared.names.Place.{Place};
ghost use Rattle.verilog_resolve.specs.Fine.{IsFine};
ghost use Rattle.verilog_flat.specs.Builds.{IsSameRoom};
ghost use Rattle.verilog_resolve.specs.Names.{IsIn, places};
ghost use Rattle.verilog_resolve.specs.Wires.{AllMatch, AreDriven, AreOrdered, Binds, known, with_nets};

use crate::driver::WireDriver;
use crate::expr::bind_wire;
use crate::names::Names;
use std::alloc::AllocError;
use verilog_flat::Build;

/// Gives a driven name the node that has its driver's value.
fn bind_driver<'a>(
    driver: &WireDriver<'a>,
    names: &mut Names<'a>,
    build: &mut Build,
) -> Result<(), AllocError>
    requires fine { IsFine (known names.old) (plain driver.now.value.now) }
    requires scope { (x : List ℕ) → IsIn (vec_len build.old.nodes) build.old.cells (places names.old x) }
    ensures ordered { IfOk result (λ d. (rest : List WireDriver) → AreOrdered (known names.old) (driver.now ∷ rest) → AreOrdered (known names.new) rest) }
    ensures nets { IfOk result (λ d. (rest : List WireDriver) → with_nets (known names.old) (driver.now ∷ rest) ≡ with_nets (known names.new) rest) }
    ensures binds { IfOk result (λ d. (drivers rest : List WireDriver) (ns : List Node) (p : List ℕ → Place)
        → Binds drivers (driver.now ∷ rest) ns build.old.nodes.items p (places names.old) → Binds drivers rest ns build.new.nodes.items p (places names.new)) }
    ensures scope { IfOk result (λ d. (x : List ℕ) → IsIn (vec_len build.new.nodes) build.new.cells (places names.new x)) }
    ensures same { IsSameRoom build.new build.old }
{
    bind_wire(driver.name, driver.value, names, build)?;
    Ok(())
}

/// Gives each driven name the node that has its driver's value, in an order in which each driver names
/// only what has its place by then.
///
/// Where the drivers are those of a module without loops, one sweep over the nodes gives each name the
/// value that it has in the module's cycle.
pub fn bind_wires<'a>(
    drivers: &[WireDriver<'a>],
    names: &mut Names<'a>,
    build: &mut Build,
) -> Result<(), AllocError>
    requires ordered { AreOrdered (known names.old) drivers.now }
    requires scope { (x : List ℕ) → IsIn (vec_len build.old.nodes) build.old.cells (places names.old x) }
    ensures values { IfOk result (λ d. (m : Plain) (rank : List ℕ → ℕ) → IsRanked m rank → AreDriven m drivers.now
        → (s : State) (ins : List ℕ → ℕ) (regs cells inputs : List ℕ)
        → AllMatch m s ins regs cells inputs build.old.nodes.items (places names.old)
        → AllMatch m s ins regs cells inputs build.new.nodes.items (places names.new)) }
    ensures known { IfOk result (λ d. known names.new ≡ with_nets (known names.old) drivers.now) }
    ensures scope { IfOk result (λ d. (x : List ℕ) → IsIn (vec_len build.new.nodes) build.new.cells (places names.new x)) }
    ensures same { IsSameRoom build.new build.old }
{
    let mut rest = drivers;
    while let [driver, more @ ..] = rest {
        bind_driver(driver, names, build)?;
        rest = more;
    }
    Ok(())
}
