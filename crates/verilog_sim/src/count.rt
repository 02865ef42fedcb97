ghost use Rattle.std.specs.Prelude.{◌≡◌, ℕ, List, ◌∷◌, IfOk, length};
ghost use Rattle.verilog_mean.specs.Plain.{Item as PlainItem};
ghost use Rattle.verilog_mean.specs.Erase.{plain_item, plain_items, plain_ports};
ghost use Rattle.verilog_sim.specs.Layouts.{input_names, register_names};
ghost use Rattle.verilog_sim.specs.Rooms.{Counts, cell_count};

use std::alloc::AllocError;
use verilog_tree::{Item, Tree};

/// How many registers, cells of arrays and input ports a module has.
#[derive(Clone, Copy, Drop)]
pub struct Room {
    pub regs: u32,
    pub cells: u32,
    pub ins: u32,
}

/// Counts an item. It fails where a number would pass 2^32: no memory has so many cells.
fn count_item(item: &Item, room: Room) -> Result<Room, AllocError>
    ensures { IfOk result (λ d. (rest : List PlainItem) → Counts room (plain_item item.now ∷ rest) d rest) }
{
    match item {
        Item::Reg { cells: None, .. } => {
            let Some(regs) = room.regs.checked_add(1) else {
                return Err(AllocError);
            };
            Ok(Room {
                regs,
                cells: room.cells,
                ins: room.ins,
            })
        }
        Item::Reg {
            cells: Some(pair),
            ..
        } => {
            let Some(last) = room.cells.checked_add(pair.second.value) else {
                return Err(AllocError);
            };
            let Some(cells) = last.checked_add(1) else {
                return Err(AllocError);
            };
            Ok(Room {
                regs: room.regs,
                cells,
                ins: room.ins,
            })
        }
        _ => Ok(room),
    }
}

/// How much room the registers, the arrays and the input ports of a tree take. It fails where a number
/// would pass 2^32: no memory has so many cells.
pub fn count(tree: &Tree) -> Result<Room, AllocError>
    ensures regs { IfOk result (λ d. d.regs ≡ length (register_names (plain_items tree.now.items))) }
    ensures cells { IfOk result (λ d. d.cells ≡ cell_count (plain_items tree.now.items)) }
    ensures ins { IfOk result (λ d. d.ins ≡ length (input_names (plain_ports tree.now.ports))) }
{
    let mut ins: u32 = 0;
    let mut ports = tree.ports.items().as_slice();
    while let [port, more @ ..] = ports {
        if port.input {
            let Some(next) = ins.checked_add(1) else {
                return Err(AllocError);
            };
            ins = next;
        }
        ports = more;
    }
    let mut room = Room {
        regs: 0,
        cells: 0,
        ins,
    };
    let mut items = tree.items.items().as_slice();
    while let [item, more @ ..] = items {
        room = count_item(item, room)?;
        items = more;
    }
    Ok(room)
}
