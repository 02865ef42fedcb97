ghost use Rattle.std.specs.Prelude.{◌≡◌, ◌++◌, ◌&&◌, eqb, codes, [], IfOk, IfErr, OnOk};
ghost use Rattle.core_words.specs.Names.{same_name};
ghost use Rattle.verilog_mean.specs.Erase.{range_width};
ghost use Rattle.verilog_mean.specs.Names.{is_bit_input, port_names, unknown_in_items, names_unknown};
ghost use Rattle.verilog_rules.specs.SameNames.{SameNames};
ghost use Rattle.verilog_rules.specs.First.{Refuses};

use crate::known::in_items;
use crate::names::Names;
use std::alloc::{AllocError, Global};
use verilog_mean::MeanRefusal;
use verilog_tree::{Ident, Item, Pair, PortDecl, Tree};

/// Whether a name is this text.
#[tactic(auto, using(crate::proofs::Uses::is_same))]
fn is_named(name: &Ident, text: &str) -> bool
    ensures { result ≡ same_name name.now.text text.now }
{
    name.text.is(text)
}

/// Whether a name with this range has one bit.
#[tactic(auto, using(crate::proofs::PortForms::one_bit))]
fn is_bit(range: Option<Pair>) -> bool
    ensures { result ≡ eqb (range_width range) 1 }
{
    match range {
        Some(range) => range.first.value == 0,
        None => true,
    }
}

fn is_this(port: &PortDecl, text: &str) -> bool
    ensures { result ≡ port.now.input && (same_name port.now.name.text text.now && eqb (range_width port.now.range) 1) }
{
    port.input && is_named(&port.name, text) && is_bit(port.range)
}

/// Whether there is an input of one bit with this name.
fn is_bit_input(ports: &[PortDecl], text: &str) -> bool
    ensures { result ≡ is_bit_input ports.now text.now }
{
    for port in ports {
        if is_this(port, text) {
            return true;
        }
    }
    false
}

/// Makes the names of the ports known.
fn learn_ports<'a>(ports: &'a [PortDecl], known: &mut Names<'a>) -> Result<(), AllocError>
    ensures { OnOk result (SameNames known.new (known.old ++ port_names ports.now)) }
{
    for port in ports {
        known.add(&port.name.text)?;
    }
    Ok(())
}

/// Whether `clk` and `reset` are inputs of one bit.
fn has_clock(ports: &[PortDecl]) -> bool
    ensures { result ≡ is_bit_input ports.now (codes "clk") && is_bit_input ports.now (codes "reset") }
{
    is_bit_input(ports, "clk") && is_bit_input(ports, "reset")
}

/// The names that items use, where the ports are known before.
fn used(alloc: Global, ports: &[PortDecl], items: &[Item]) -> Result<(), MeanRefusal>
    ensures sound { IfOk result (λ _. unknown_in_items (port_names ports.now) items.now ≡ []) }
    ensures refused { IfErr result (λ r. Refuses r (unknown_in_items (port_names ports.now) items.now)) }
{
    let mut known = Names::new(alloc);
    match learn_ports(ports, &mut known) {
        Ok(()) => {}
        Err(_) => return Err(MeanRefusal::NoMemory),
    }
    in_items(items, &mut known)
}

/// Third rule: a name that is used is declared before; `clk` and `reset` are inputs of one bit.
pub fn names_unknown(alloc: Global, tree: &Tree) -> Result<(), MeanRefusal>
    ensures sound { IfOk result (λ _. names_unknown tree.now ≡ []) }
    ensures refused { IfErr result (λ r. Refuses r (names_unknown tree.now)) }
{
    let ports = tree.ports.items().as_slice();
    if !has_clock(ports) {
        return Err(MeanRefusal::NameUnknown { at: tree.name.at });
    }
    used(alloc, ports, tree.items.items().as_slice())
}
