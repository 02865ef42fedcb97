ghost use Rattle.std.specs.Prelude.{◌≡◌, ℕ, List, ◌<◌, ◌^◌, IfOk, length, vec_len};
ghost use Rattle.verilog_mean.specs.Checked.{IsChecked};
ghost use Rattle.verilog_mean.specs.Erase.{plain_tree};
ghost use Rattle.verilog_resolve.specs.Names.{IsIn, places};
ghost use Rattle.verilog_resolve.specs.Wires.{known};
ghost use Rattle.verilog_sim.specs.Matched.{Knows, MatchesAll};
ghost use Rattle.verilog_sim.specs.Layouts.{input_names, register_names};
ghost use Rattle.verilog_sim.specs.Rooms.{cell_count};

use crate::bind::{bind_held, bind_inputs};
use crate::count::count;
use crate::drivers::drivers_by;
use std::alloc::{AllocError, Global};
use verilog_flat::Build;
use verilog_mean::Checked;
use verilog_resolve::{Names, bind_wires};

/// A circuit in the making, with the places of names.
#[derive(Drop)]
pub struct Bound<'a> {
    pub names: Names<'a>,
    pub build: Build,
}

/// The circuit in which each name of a sound tree has its place and its value.
pub fn bind_all(alloc: Global, checked: &Checked) -> Result<Bound<'_>, AllocError>
    requires { IsChecked checked.now }
    ensures knows { IfOk result (λ b. Knows checked.now.tree (known b.names)) }
    ensures matches { IfOk result (λ b. MatchesAll checked.now.tree b.build.nodes.items (places b.names)) }
    ensures scope { IfOk result (λ b. (x : List ℕ) → IsIn (vec_len b.build.nodes) b.build.cells (places b.names x)) }
    ensures regs { IfOk result (λ b. b.build.regs ≡ length (register_names (plain_tree checked.now.tree).items)) }
    ensures cells { IfOk result (λ b. b.build.cells ≡ cell_count (plain_tree checked.now.tree).items) }
    ensures ins { IfOk result (λ b. b.build.ins ≡ length (input_names (plain_tree checked.now.tree).ports)) }
    ensures few { IfOk result (λ b. b.build.cells < 2 ^ 32) }
{
    let ports = checked.tree.ports.items().as_slice();
    let items = checked.tree.items.items().as_slice();
    let room = count(&checked.tree)?;
    let mut build = Build::new(
        alloc,
        room.regs as usize,
        room.cells as usize,
        room.ins as usize,
    );
    let mut names = Names::new(alloc);
    bind_inputs(ports, &mut names, &mut build)?;
    bind_held(items, &mut names, &mut build)?;
    let drivers = drivers_by(alloc, items, checked.order.as_slice())?;
    bind_wires(drivers.as_slice(), &mut names, &mut build)?;
    Ok(Bound { names, build })
}
