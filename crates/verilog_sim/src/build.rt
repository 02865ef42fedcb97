ghost use Rattle.std.specs.Prelude.{◌≡◌, IfOk, length, map, vec_len};
ghost use Rattle.verilog_mean.specs.Checked.{IsChecked};
ghost use Rattle.verilog_mean.specs.Erase.{plain_tree};
ghost use Rattle.verilog_mean.specs.Zero.{zero_state};
ghost use Rattle.verilog_sim.specs.ArrayPlaces.{place_of};
ghost use Rattle.verilog_sim.specs.Layouts.{layout_of};
ghost use Rattle.verilog_sim.specs.Rooms.{cell_count};
ghost use Rattle.verilog_sim.specs.Simulates.{Shows, Simulates};

use crate::arrays::array_places;
use crate::bound::{Bound, bind_all};
use crate::nexts::next_nodes;
use crate::outs::output_nodes;
use crate::puts::array_writes;
use crate::stmts::stmts_of;
use crate::tree_sim::TreeSim;
use std::alloc::{AllocError, Global};
use verilog_flat::FlatSim;
use verilog_mean::Checked;

impl TreeSim {
    /// The simulator of a sound tree, whose registers and cells hold 0. Ports, registers and arrays are
    /// numbered in the order of their declarations.
    ///
    /// It takes time linear in the size of the tree, but for looking up names. It fails where memory runs
    /// out; 2^32 cells or nodes are taken to be more than there is memory for.
    pub fn new(alloc: Global, checked: &Checked) -> Result<TreeSim, AllocError>
        requires { IsChecked checked.now }
        ensures simulates { IfOk result (λ sim. Simulates (plain_tree checked.now.tree) (layout_of (plain_tree checked.now.tree)) sim.flat) }
        ensures zero { IfOk result (λ sim. Shows (plain_tree checked.now.tree) (layout_of (plain_tree checked.now.tree)) (zero_state (plain_tree checked.now.tree))
            sim.flat.regs.items sim.flat.cells.items) }
        ensures ins { IfOk result (λ sim. sim.flat.ins ≡ length (layout_of (plain_tree checked.now.tree)).ins) }
        ensures arrays { IfOk result (λ sim. sim.arrays.items ≡ map place_of (layout_of (plain_tree checked.now.tree)).arrays) }
        ensures cells { IfOk result (λ sim. vec_len sim.flat.cells ≡ cell_count (plain_tree checked.now.tree).items) }
        ensures outs { IfOk result (λ sim. vec_len sim.flat.outs ≡ length (layout_of (plain_tree checked.now.tree)).outs) }
    {
        let Bound { names, mut build } = bind_all(alloc, checked)?;
        let ports = checked.tree.ports.items().as_slice();
        let items = checked.tree.items.items().as_slice();
        let stmts = stmts_of(alloc, items)?;
        let next = next_nodes(alloc, items, &stmts, &names, &mut build)?;
        let writes = array_writes(alloc, items, &stmts, &names, &mut build)?;
        let outs = output_nodes(alloc, ports, &names)?;
        let flat = FlatSim::new(alloc, build, next, writes, outs)?;
        let arrays = array_places(alloc, items)?;
        Ok(TreeSim { flat, arrays })
    }
}
