ghost use Rattle.std.specs.Prelude.{◌≡◌, ℕ, List, ◌^◌, ◌<◌, IfOk, OnOk, length};
ghost use Rattle.verilog_mean.specs.Erase.{plain_items, plain_ports, plain_tree};
ghost use Rattle.verilog_mean.specs.Look.{look};
ghost use Rattle.verilog_rules.specs.Collected.{maybe_ident};
ghost use Rattle.verilog_rules.specs.Sources.{giver, giver_from, givers, item_number, number_in, or_next, port_giver, source_ident};

use indexmap::IndexMap;
use std::alloc::{AllocError, Global};
use verilog_tree::{Ident, Item, PortDecl, Tree};

/// For each name the first thing that gives it a value: an input, or an item by its number, counted from 0.
/// The names are borrowed from the tree.
#[derive(Drop)]
pub struct Sources<'a> {
    pub by_name: IndexMap<&'a str, Option<u32>>,
}

impl<'a> Sources<'a> {
    ghost use Rattle.std.specs.Prelude.{◌≡◌, ℕ, List, None, OnOk};
    ghost use Rattle.core_words.specs.Names.{same_name};
    ghost use Rattle.verilog_mean.specs.Look.{pick_if};
    ghost use Rattle.verilog_rules.specs.Sources.{givers, number_in, or_next};

    fn new(alloc: Global) -> Sources<'a>
        ensures { (x : List ℕ) → givers result x ≡ None }
    {
        Sources {
            by_name: IndexMap::new(alloc),
        }
    }

    /// The number of the item that gives a name its value.
    pub fn number(&self, name: &Ident) -> Option<u32>
        ensures { result ≡ number_in self.now name.now.text }
    {
        match self.by_name.get(name.text.text().as_str()) {
            Some(number) => *number,
            None => None,
        }
    }

    /// Notes what gives a name its value, where nothing before does.
    fn add(&mut self, name: &'a Ident, number: Option<u32>) -> Result<(), AllocError>
        ensures { OnOk result ((x : List ℕ) → givers self.new x ≡ or_next (givers self.old x) (pick_if (same_name name.now.text x) number None)) }
    {
        let text = name.text.text().as_str();
        match self.by_name.get(text) {
            Some(_) => Ok(()),
            None => {
                self.by_name.insert(text, number)?;
                Ok(())
            }
        }
    }
}

/// The name that an item gives a value in each cycle.
fn source_name(item: &Item) -> Option<&Ident>
    ensures { maybe_ident result ≡ source_ident item.now }
{
    match item {
        Item::Wire { name, driver, .. } => match driver {
            Some(_) => Some(name),
            None => None,
        },
        Item::Reg { name, cells, .. } => match cells {
            Some(_) => None,
            None => Some(name),
        },
        Item::Assign { target, .. } => Some(target),
        Item::Always { .. } => None,
    }
}

fn add_inputs<'a>(ports: &'a [PortDecl], sources: &mut Sources<'a>) -> Result<(), AllocError>
    ensures { OnOk result ((x : List ℕ) → givers sources.new x ≡ or_next (givers sources.old x) (look port_giver (plain_ports ports.now) x)) }
{
    for port in ports {
        if port.input {
            sources.add(&port.name, None)?;
        }
    }
    Ok(())
}

fn add_items<'a>(items: &'a [Item], sources: &mut Sources<'a>) -> Result<(), AllocError>
    requires { length items.now < 2 ^ 32 }
    ensures { OnOk result ((x : List ℕ) → givers sources.new x ≡ or_next (givers sources.old x) (giver_from 0 (plain_items items.now) x)) }
{
    for (number, item) in items.iter().enumerate() {
        if let Some(name) = source_name(item) {
            sources.add(name, Some(number as u32))?;
        }
    }
    Ok(())
}

/// The sources of a tree's names.
pub fn sources_of(alloc: Global, tree: &Tree) -> Result<Sources<'_>, AllocError>
    requires { length tree.now.items < 2 ^ 32 }
    ensures { IfOk result (λ s. (x : List ℕ) → number_in s x ≡ item_number (plain_tree tree.now) x) }
{
    let mut sources = Sources::new(alloc);
    add_inputs(tree.ports.items().as_slice(), &mut sources)?;
    add_items(tree.items.items().as_slice(), &mut sources)?;
    Ok(sources)
}
