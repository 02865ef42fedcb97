ghost use Rattle.std.specs.Prelude.{◌≡◌, ℕ, List, IfOk, map};
ghost use Rattle.verilog_mean.specs.Erase.{plain_ports};
ghost use Rattle.verilog_resolve.specs.Names.{node_of, places};
ghost use Rattle.verilog_sim.specs.Layouts.{output_names};

use std::alloc::{AllocError, Global};
use verilog_resolve::{Names, Place};
use verilog_tree::PortDecl;

/// The node of a name, 0 where it has none.
fn node_at(name: &str, names: &Names) -> u32
    ensures { result ≡ node_of (places names.now name.now) }
{
    match names.place(name) {
        Place::Net { node, .. } => node,
        _ => 0,
    }
}

/// The nodes of the output ports, in order.
pub fn output_nodes(
    alloc: Global,
    ports: &[PortDecl],
    names: &Names,
) -> Result<Vec<u32>, AllocError>
    ensures { IfOk result (λ outs. outs.items ≡ map (λ x. node_of (places names.now x)) (output_names (plain_ports ports.now))) }
{
    let mut outs = Vec::new(alloc);
    let mut rest = ports;
    while let [port, more @ ..] = rest {
        if !port.input {
            outs.push(node_at(port.name.text.text(), names))?;
        }
        rest = more;
    }
    Ok(outs)
}
