ghost use Rattle.std.specs.Prelude.{◌≡◌, ℕ, List, [], ◌∷◌, ◌+◌, ◌<◌, ◌^◌, IfOk, map};
ghost use Rattle.verilog_mean.specs.Plain.{Item as PlainItem};
ghost use Rattle.verilog_mean.specs.Erase.{plain_item, plain_items};
ghost use Rattle.verilog_mean.specs.Look.{put};
ghost use Rattle.verilog_sim.specs.ArrayPlaces.{place_of, place_size};
ghost use Rattle.verilog_sim.specs.Layouts.{spans_from};
ghost use Rattle.verilog_sim.specs.Rooms.{cell_count};

use std::alloc::{AllocError, Global};
use verilog_tree::Item;

/// Where the cells of an array lie among those of all arrays.
#[derive(Clone, Copy, Drop)]
pub struct ArrayPlace {
    pub base: u32,
    pub size: u32,
}

/// The place of an item's cells, which begin at the cell `base`, where the item is an array.
fn place_in(item: &Item, base: u32) -> Option<ArrayPlace>
    requires few { base + cell_count (plain_item item.now ∷ []) < 2 ^ 32 }
    ensures size { cell_count (plain_item item.now ∷ []) ≡ place_size result }
    ensures place { (rest : List PlainItem) → map place_of (spans_from base (plain_item item.now ∷ rest))
        ≡ put result (map place_of (spans_from (base + cell_count (plain_item item.now ∷ [])) rest)) }
{
    match item {
        Item::Reg {
            cells: Some(cells),
            ..
        } => Some(ArrayPlace {
            base,
            size: cells.second.value + 1,
        }),
        _ => None,
    }
}

/// The places of the arrays, in the order of their declarations.
pub fn array_places(alloc: Global, items: &[Item]) -> Result<Vec<ArrayPlace>, AllocError>
    requires { cell_count (plain_items items.now) < 2 ^ 32 }
    ensures { IfOk result (λ places. places.items ≡ map place_of (spans_from 0 (plain_items items.now))) }
{
    let mut places = Vec::new(alloc);
    let mut base: u32 = 0;
    let mut rest = items;
    while let [item, more @ ..] = rest {
        if let Some(place) = place_in(item, base) {
            places.push(place)?;
            base += place.size;
        }
        rest = more;
    }
    Ok(places)
}
