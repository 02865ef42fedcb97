ghost use Rattle.std.specs.Prelude.{◌≤◌, IfOk};
ghost use Rattle.hw_module.specs.Checked.{IsChecked};
ghost use Rattle.module_netlist.specs.Written.{thing_count};

use crate::draft::Draft;
use crate::nodes::{Binary, Make};
use crate::sample::{Sample, SampleRefusal};
use hw_module::{Module, Owner};
use std::alloc::Global;

/// The nodes of the small module. Nothing takes that of place 12.
const NODES: [Make; 38] = [
    Make::Reg(0),
    Make::Wire(0),
    Make::Not(0),
    Make::Binary(Binary::And, 0, 1),
    Make::Binary(Binary::Or, 0, 1),
    Make::Binary(Binary::Xor, 0, 1),
    Make::Reg(0),
    Make::Wire(0),
    Make::Binary(Binary::Add, 6, 7),
    Make::Binary(Binary::Sub, 6, 7),
    Make::Binary(Binary::Eq, 6, 7),
    Make::Binary(Binary::Ltu, 6, 7),
    Make::Lit(3, 7),
    Make::Ready,
    Make::Lit(8, 0x1f),
    Make::Binary(Binary::Cat, 14, 13),
    Make::Slice(15, 8, 1),
    Make::Mux(13, 14, 16),
    Make::Reg(2),
    Make::Read(0, 18),
    Make::Reg(0),
    Make::Reg(1),
    Make::Wire(0),
    Make::Wire(1),
    Make::Reg(0),
    Make::Reg(1),
    Make::Reg(2),
    Make::Reg(2),
    Make::Reg(1),
    Make::Binary(Binary::Cat, 2, 3),
    Make::Binary(Binary::Cat, 4, 5),
    Make::Binary(Binary::Cat, 29, 30),
    Make::Binary(Binary::Cat, 8, 9),
    Make::Binary(Binary::Cat, 17, 19),
    Make::Binary(Binary::Cat, 32, 33),
    Make::Slice(34, 1, 0),
    Make::Slice(34, 4, 0),
    Make::Slice(8, 3, 0),
];

/// The outputs by their ports, with the places of their nets.
const OUTPUTS: [(u32, usize); 17] = [
    (2, 10),
    (4, 31),
    (8, 11),
    (10, 25),
    (11, 34),
    (12, 31),
    (13, 27),
    (20, 21),
    (21, 35),
    (22, 34),
    (23, 31),
    (24, 36),
    (25, 34),
    (26, 31),
    (27, 11),
    (28, 28),
    (29, 34),
];

/// A module with two forward wires, a register with a reset and two without, an array, each operator and all outputs.
///
/// # Errors
/// `NoMemory` where memory was refused.
pub(crate) fn small(alloc: Global) -> Result<Sample, SampleRefusal>
    ensures checked { IfOk result (λ s. IsChecked s.circuit s.pool) }
    ensures few { IfOk result (λ s. thing_count s.circuit s.pool ≤ 65535) }
{
    let mut m = Module::with_room(alloc, 40)?;
    m.wire(Owner::Entry(3), 8, 2);
    m.wire(Owner::Pipe, 1, 1);
    m.reg(Owner::Pipe, 8, Some(0x5a));
    m.reg(Owner::Entry(12), 1, None);
    m.reg(Owner::Entry(3), 4, None);
    m.array(Owner::Entry(3), 8, 4);
    let mut draft = Draft::new(alloc, m, 38)?;
    for k in 0..38 {
        draft.node(NODES[k])?;
    }
    draft.drive(0, 20)?;
    draft.drive(1, 21)?;
    draft.next(0, 22)?;
    draft.next(1, 23)?;
    draft.next(2, 37)?;
    draft.write(0, 25, 26, 24)?;
    for k in 0..17 {
        draft.output(OUTPUTS[k].0, OUTPUTS[k].1)?;
    }
    draft.done()
}
