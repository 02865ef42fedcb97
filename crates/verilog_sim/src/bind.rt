ghost use Rattle.std.specs.Prelude.{◌≡◌, ℕ, List, [], ◌∷◌, ◌+◌, ◌<◌, ◌≤◌, ◌^◌, Option, Some, None, IfOk, length, vec_len};
ghost use Rattle.verilog_mean.specs.Plain.{Item as PlainItem, Port as PlainPort};
ghost use Rattle.verilog_mean.specs.Erase.{plain_item, plain_items, plain_port, plain_ports, range_width};
ghost use Rattle.verilog_flat.specs.declared.node.Node.{Node};
ghost use Rattle.verilog_flat.specs.Builds.{IsSameRoom};
ghost use Rattle.verilog_resolve.specs.declared.names.Place.{Place};
ghost use Rattle.verilog_resolve.specs.Names.{IsIn, places};
ghost use Rattle.verilog_resolve.specs.Wires.{known};
ghost use Rattle.verilog_sim.specs.Layouts.{input_names, register_names};
ghost use Rattle.verilog_sim.specs.Rooms.{cell_count};
ghost use Rattle.verilog_sim.specs.Bindings.{AreSized, AreNarrowPorts, BindsItems, BindsPorts, IsSized, IsNarrowPort, with_item, with_items, with_port, with_ports};

use crate::held::{held_of, width_of};
use std::alloc::AllocError;
use verilog_flat::{Build, Node};
use verilog_resolve::{Names, bind_array, bind_node};
use verilog_tree::{Item, PortDecl};

/// Binds a port's name, where it is an input, to the input with the number `at`, and answers the number
/// of the next input.
fn bind_port<'a>(
    port: &'a PortDecl,
    at: u32,
    names: &mut Names<'a>,
    build: &mut Build,
) -> Result<u32, AllocError>
    requires narrow { IsNarrowPort (plain_port port.now.input (range_width port.now.range) port.now.name.text) }
    requires room { at + length (input_names (plain_port port.now.input (range_width port.now.range) port.now.name.text ∷ [])) ≤ build.old.ins }
    requires few { build.old.ins < 2 ^ 32 }
    requires scope { (x : List ℕ) → IsIn (vec_len build.old.nodes) build.old.cells (places names.old x) }
    ensures at { IfOk result (λ n. n ≡ at + length (input_names (plain_port port.now.input (range_width port.now.range) port.now.name.text ∷ []))) }
    ensures known { IfOk result (λ n. known names.new ≡ with_port (known names.old) (plain_port port.now.input (range_width port.now.range) port.now.name.text)) }
    ensures scope { IfOk result (λ n. (x : List ℕ) → IsIn (vec_len build.new.nodes) build.new.cells (places names.new x)) }
    ensures binds { IfOk result (λ n. (ports rest : List PlainPort) (ns : List Node) (p : List ℕ → Place)
        → BindsPorts ports (plain_port port.now.input (range_width port.now.range) port.now.name.text ∷ rest) at ns build.old.nodes.items p (places names.old)
        → BindsPorts ports rest n ns build.new.nodes.items p (places names.new)) }
    ensures same { IsSameRoom build.new build.old }
{
    if !port.input {
        return Ok(at);
    }
    let width = width_of(&port.range);
    bind_node(
        port.name.text.text(),
        width,
        Node::Input { port: at },
        names,
        build,
    )?;
    Ok(at + 1)
}

/// Binds each input port's name to an input, in order.
pub fn bind_inputs<'a>(
    ports: &'a [PortDecl],
    names: &mut Names<'a>,
    build: &mut Build,
) -> Result<(), AllocError>
    requires narrow { AreNarrowPorts (plain_ports ports.now) }
    requires room { length (input_names (plain_ports ports.now)) ≤ build.old.ins }
    requires few { build.old.ins < 2 ^ 32 }
    requires scope { (x : List ℕ) → IsIn (vec_len build.old.nodes) build.old.cells (places names.old x) }
    ensures known { IfOk result (λ d. known names.new ≡ with_ports (known names.old) (plain_ports ports.now)) }
    ensures scope { IfOk result (λ d. (x : List ℕ) → IsIn (vec_len build.new.nodes) build.new.cells (places names.new x)) }
    ensures binds { IfOk result (λ d. BindsPorts (plain_ports ports.now) [] (length (input_names (plain_ports ports.now)))
        build.old.nodes.items build.new.nodes.items (places names.old) (places names.new)) }
    ensures same { IsSameRoom build.new build.old }
{
    let mut at: u32 = 0;
    let mut rest = ports;
    while let [port, more @ ..] = rest {
        at = bind_port(port, at, names, build)?;
        rest = more;
    }
    Ok(())
}

/// The number of the next register, and the cell where the next array begins.
#[derive(Clone, Copy, Drop)]
pub struct Next {
    pub reg: u32,
    pub base: u32,
}

/// Binds the name of a register or an array, and answers what comes next.
fn bind_item<'a>(
    item: &'a Item,
    next: Next,
    names: &mut Names<'a>,
    build: &mut Build,
) -> Result<Next, AllocError>
    requires sized { IsSized (plain_item item.now) }
    requires regs { next.reg + length (register_names (plain_item item.now ∷ [])) ≤ build.old.regs }
    requires cells { next.base + cell_count (plain_item item.now ∷ []) ≤ build.old.cells }
    requires few { (build.old.regs < 2 ^ 32) × (build.old.cells < 2 ^ 32) }
    requires scope { (x : List ℕ) → IsIn (vec_len build.old.nodes) build.old.cells (places names.old x) }
    ensures reg { IfOk result (λ n. n.reg ≡ next.reg + length (register_names (plain_item item.now ∷ []))) }
    ensures base { IfOk result (λ n. n.base ≡ next.base + cell_count (plain_item item.now ∷ [])) }
    ensures known { IfOk result (λ n. known names.new ≡ with_item (known names.old) (plain_item item.now)) }
    ensures scope { IfOk result (λ n. (x : List ℕ) → IsIn (vec_len build.new.nodes) build.new.cells (places names.new x)) }
    ensures binds { IfOk result (λ n. (items rest : List PlainItem) (ns : List Node) (p : List ℕ → Place)
        → BindsItems items (plain_item item.now ∷ rest) next.reg next.base ns build.old.nodes.items p (places names.old)
        → BindsItems items rest n.reg n.base ns build.new.nodes.items p (places names.new)) }
    ensures same { IsSameRoom build.new build.old }
{
    let Some(held) = held_of(item) else {
        return Ok(next);
    };
    match held.cells {
        None => {
            bind_node(
                held.name,
                held.width,
                Node::Reg { reg: next.reg },
                names,
                build,
            )?;
            Ok(Next {
                reg: next.reg + 1,
                base: next.base,
            })
        }
        Some(size) => {
            bind_array(held.name, next.base, size, held.width, names)?;
            Ok(Next {
                reg: next.reg,
                base: next.base + size,
            })
        }
    }
}

/// Binds the names of registers and arrays, in order.
pub fn bind_held<'a>(
    items: &'a [Item],
    names: &mut Names<'a>,
    build: &mut Build,
) -> Result<(), AllocError>
    requires sized { AreSized (plain_items items.now) }
    requires regs { length (register_names (plain_items items.now)) ≤ build.old.regs }
    requires cells { cell_count (plain_items items.now) ≤ build.old.cells }
    requires few { (build.old.regs < 2 ^ 32) × (build.old.cells < 2 ^ 32) }
    requires scope { (x : List ℕ) → IsIn (vec_len build.old.nodes) build.old.cells (places names.old x) }
    ensures known { IfOk result (λ d. known names.new ≡ with_items (known names.old) (plain_items items.now)) }
    ensures scope { IfOk result (λ d. (x : List ℕ) → IsIn (vec_len build.new.nodes) build.new.cells (places names.new x)) }
    ensures binds { IfOk result (λ d. BindsItems (plain_items items.now) [] (length (register_names (plain_items items.now))) (cell_count (plain_items items.now))
        build.old.nodes.items build.new.nodes.items (places names.old) (places names.new)) }
    ensures same { IsSameRoom build.new build.old }
{
    let mut next = Next { reg: 0, base: 0 };
    let mut rest = items;
    while let [item, more @ ..] = rest {
        next = bind_item(item, next, names, build)?;
        rest = more;
    }
    Ok(())
}
