ghost use Rattle.std.specs.Prelude.{◌≡◌, ◌<◌, All, IfOk, length, map};
ghost use Rattle.verilog_mean.specs.Erase.{plain_item, plain_items};
ghost use Rattle.verilog_mean.specs.Order.{drive_at, drive_of};
ghost use Rattle.verilog_sim.specs.Drives.{drive, drives_by, maybe_drive};

use std::alloc::{AllocError, Global};
use verilog_resolve::WireDriver;
use verilog_tree::Item;

/// The name that an item drives outside the clock, and its driver.
fn driver_of(item: &Item) -> Option<WireDriver<'_>>
    ensures { maybe_drive result ≡ drive_of (plain_item item.now) }
{
    match item {
        Item::Wire {
            name,
            driver: Some(driver),
            ..
        } => Some(WireDriver {
            name: name.text.text(),
            value: &driver.value,
        }),
        Item::Assign { target, driver, .. } => Some(WireDriver {
            name: target.text.text(),
            value: &driver.value,
        }),
        _ => None,
    }
}

/// The same by the item's number.
fn driver_at(items: &[Item], number: usize) -> Option<WireDriver<'_>>
    requires { number < length items.now }
    ensures { maybe_drive result ≡ drive_at (plain_items items.now) number }
{
    driver_of(&items[number])
}

/// The drivers of wires and outputs, in an order of the items.
pub fn drivers_by<'a>(
    alloc: Global,
    items: &'a [Item],
    order: &[u32],
) -> Result<Vec<WireDriver<'a>>, AllocError>
    requires { All (λ n. n < length items.now) order.now }
    ensures { IfOk result (λ ds. map drive ds.items ≡ drives_by (plain_items items.now) order.now) }
{
    let mut drivers = Vec::new(alloc);
    let mut rest = order;
    while let [number, more @ ..] = rest {
        if let Some(driver) = driver_at(items, *number as usize) {
            drivers.push(driver)?;
        }
        rest = more;
    }
    Ok(drivers)
}
