ghost use Rattle.std.specs.Prelude.{◌≡◌, ℕ, List, ◌+◌, ◌^◌, ◌<◌, ◌≤◌, IfOk, OnOk, cond, get_or, ltb, vec_len};
ghost use Rattle.verilog_flat.specs.declared.node.Node.{Node};
ghost use Rattle.verilog_flat.specs.Builds.{IsSameRoom};
ghost use Rattle.verilog_flat.specs.Flat.{IsFit, node_value, values};
ghost use Rattle.verilog_resolve.specs.Means.{Matches};
ghost use Rattle.verilog_resolve.specs.Names.{IsIn, places};
ghost use Rattle.verilog_resolve.specs.Wires.{known, with_array, with_net};

use crate::names::{Names, Place};
use std::alloc::AllocError;
use verilog_flat::{Build, Node};

/// Gives a name a node of its own, as that of a register or of an input port.
pub fn bind_node<'a>(
    name: &'a str,
    width: u32,
    node: Node,
    names: &mut Names<'a>,
    build: &mut Build,
) -> Result<(), AllocError>
    requires narrow { width ≤ 64 }
    requires fits { IsFit build.old.regs build.old.cells build.old.ins (vec_len build.old.nodes) node }
    requires scope { (x : List ℕ) → IsIn (vec_len build.old.nodes) build.old.cells (places names.old x) }
    ensures values { IfOk result (λ d. (regs cells ins : List ℕ) (w : List ℕ → ℕ) (arrays : List ℕ → List ℕ) (val : List ℕ → ℕ)
        → w name.now ≡ width → val name.now ≡ node_value regs cells ins (values regs cells ins build.old.nodes.items) node → val name.now < 2 ^ width
        → ((x : List ℕ) → Matches regs cells ins w arrays val build.old.nodes.items x (places names.old x))
        → (x : List ℕ) → Matches regs cells ins w arrays val build.new.nodes.items x (places names.new x)) }
    ensures known { IfOk result (λ d. known names.new ≡ with_net (known names.old) name.now width) }
    ensures scope { IfOk result (λ d. (x : List ℕ) → IsIn (vec_len build.new.nodes) build.new.cells (places names.new x)) }
    ensures same { IsSameRoom build.new build.old }
{
    let at = build.push(node)?;
    names.bind(name, Place::Net { node: at, width })?;
    Ok(())
}

/// Gives a name an array of `size` cells that begins at the cell `base`.
pub fn bind_array<'a>(
    name: &'a str,
    base: u32,
    size: u32,
    width: u32,
    names: &mut Names<'a>,
) -> Result<(), AllocError>
    requires narrow { width ≤ 64 }
    ensures values { OnOk result ((regs cells ins : List ℕ) (w : List ℕ → ℕ) (arrays : List ℕ → List ℕ) (val : List ℕ → ℕ) (ns : List Node)
        → w name.now ≡ width → ((i : ℕ) → cond (ltb i size) (get_or cells (base + i) 0) 0 ≡ get_or (arrays name.now) i 0) → ((i : ℕ) → get_or (arrays name.now) i 0 < 2 ^ width)
        → ((x : List ℕ) → Matches regs cells ins w arrays val ns x (places names.old x))
        → (x : List ℕ) → Matches regs cells ins w arrays val ns x (places names.new x)) }
    ensures known { OnOk result (known names.new ≡ with_array (known names.old) name.now width) }
    ensures scope { OnOk result ((nodes cells : ℕ) → base + size ≤ cells
        → ((x : List ℕ) → IsIn nodes cells (places names.old x)) → (x : List ℕ) → IsIn nodes cells (places names.new x)) }
{
    names.bind(name, Place::Array { base, size, width })
}
