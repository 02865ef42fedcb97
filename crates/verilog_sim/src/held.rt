ghost use Rattle.std.specs.Prelude.{◌≡◌, ◌≤◌, Option, Some, None};
ghost use Rattle.verilog_mean.specs.Erase.{plain_item, range_width};
ghost use Rattle.verilog_sim.specs.Bindings.{IsSized};
ghost use Rattle.verilog_sim.specs.HeldItems.{held_in, maybe_held};

use verilog_tree::{Item, Pair};

/// The width of a name with a range, in bits.
pub fn width_of(range: &Option<Pair>) -> u32
    requires { range_width range.now ≤ 64 }
    ensures { result ≡ range_width range.now }
{
    match range {
        None => 1,
        Some(range) => range.first.value + 1,
    }
}

/// A register, or an array with its number of cells. The width is in bits.
#[derive(Clone, Copy, Drop)]
pub struct Held<'a> {
    pub name: &'a str,
    pub width: u32,
    pub cells: Option<u32>,
}

/// The register or the array that an item declares.
pub fn held_of(item: &Item) -> Option<Held<'_>>
    requires { IsSized (plain_item item.now) }
    ensures { maybe_held result ≡ held_in (plain_item item.now) }
{
    match item {
        Item::Reg {
            range,
            name,
            cells: None,
            ..
        } => Some(Held {
            name: name.text.text(),
            width: width_of(range),
            cells: None,
        }),
        Item::Reg {
            range,
            name,
            cells: Some(cells),
            ..
        } => Some(Held {
            name: name.text.text(),
            width: width_of(range),
            cells: Some(cells.second.value + 1),
        }),
        _ => None,
    }
}
