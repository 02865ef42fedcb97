ghost use Rattle.std.specs.Prelude.{◌≡◌, IfOk, map};
ghost use Rattle.verilog_mean.specs.Declarations.{declarations, port_declaration, item_declaration};
ghost use Rattle.verilog_rules.specs.Collected.{declaration, maybe_declaration};

use std::alloc::{AllocError, Global};
use verilog_mean::Class;
use verilog_tree::{Ident, Item, Pair, PortDecl, Tree};

/// A declaration without its name.
#[derive(Clone, Copy, Debug, PartialEq, Eq)]
pub struct Shape {
    pub range: Option<Pair>,
    pub class: Class,
}

/// A declaration of a tree.
#[derive(Clone, Copy, Drop)]
pub struct Declared<'a> {
    pub name: &'a Ident,
    pub shape: Shape,
}

fn of_port(port: &PortDecl) -> Declared<'_>
    ensures { declaration result ≡ port_declaration port.now }
{
    let class = if port.input {
        Class::Input
    } else {
        Class::Output
    };
    Declared {
        name: &port.name,
        shape: Shape {
            range: port.range,
            class,
        },
    }
}

fn of_item(item: &Item) -> Option<Declared<'_>>
    ensures { maybe_declaration result ≡ item_declaration item.now }
{
    let (name, range, class) = match item {
        Item::Wire {
            range,
            name,
            driver,
            ..
        } => {
            let inline = driver.is_some();
            (name, *range, Class::Wired { inline })
        }
        Item::Reg {
            range,
            name,
            cells,
            ..
        } => match cells {
            Some(cells) => (name, *range, Class::Array { cells: *cells }),
            None => (name, *range, Class::Register),
        },
        _ => return None,
    };
    Some(Declared {
        name,
        shape: Shape { range, class },
    })
}

/// The declarations of a tree, in the order of the text.
pub fn collect(alloc: Global, tree: &Tree) -> Result<Vec<Declared<'_>>, AllocError>
    ensures { IfOk result (λ all. map declaration all.items ≡ declarations tree.now) }
{
    let mut all = Vec::new(alloc);
    let mut ports = tree.ports.items().as_slice();
    while let [port, more @ ..] = ports {
        all.push(of_port(port))?;
        ports = more;
    }
    let mut items = tree.items.items().as_slice();
    while let [item, more @ ..] = items {
        if let Some(d) = of_item(item) {
            all.push(d)?;
        }
        items = more;
    }
    Ok(all)
}
