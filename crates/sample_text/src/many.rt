ghost use Rattle.std.specs.Prelude.{◌≤◌, IfOk};
ghost use Rattle.hw_pool.specs.Nodes.{PoolValue};
ghost use Rattle.hw_module.specs.Checked.{DriversFit, IsChecked};
ghost use Rattle.module_netlist.specs.Written.{thing_count};
ghost use Rattle.sample_text.specs.Draft.{IsDraft};

use crate::draft::Draft;
use crate::nodes::{Binary, Make};
use crate::sample::{Sample, SampleRefusal};
use hw_module::{Module, Owner, PORTS, is_output, port_width};
use std::alloc::Global;

/// How many nodes the large module has but for the last register's: with 300 registers, their next values and
/// 17 outputs it has 65,535 things.
const NODES: usize = 64_917;

/// Makes 299 registers of 32 bits and one of 64.
fn registers(m: &mut Module) -> Result<(), SampleRefusal>
    requires { (pool : PoolValue) → DriversFit m.old pool }
    ensures { (pool : PoolValue) → DriversFit m.new pool }
{
    for k in 0..300 {
        if m.room() == 0 {
            return Err(SampleRefusal::TooMany);
        }
        let (owner, width) = if k < 299 {
            (Owner::Entry(k), 32)
        } else {
            (Owner::Pipe, 64)
        };
        m.reg(owner, width, None);
    }
    Ok(())
}

/// The next value of a register: a chain of `n` sums and exclusive ors over it and the net at a place. It answers the
/// place of the register's net.
fn column(draft: &mut Draft, reg: u32, net: usize, n: usize) -> Result<usize, SampleRefusal>
    requires { IsDraft draft.old.m draft.old.pool draft.old.nets.items }
    ensures { IsDraft draft.new.m draft.new.pool draft.new.nets.items }
{
    let old = draft.node(Make::Reg(reg))?;
    let mut last = old;
    for k in 0..n {
        let op = if k % 2 == 0 { Binary::Add } else { Binary::Xor };
        last = draft.node(Make::Binary(op, last, net))?;
    }
    draft.next(reg, last)?;
    Ok(old)
}

/// Drives each output by bits of a net of 64 bits.
fn outputs(draft: &mut Draft, net: usize) -> Result<(), SampleRefusal>
    requires { IsDraft draft.old.m draft.old.pool draft.old.nets.items }
    ensures { IsDraft draft.new.m draft.new.pool draft.new.nets.items }
{
    for port in 0..PORTS {
        if is_output(port) {
            let bits = draft.node(Make::Slice(net, port + port_width(port) - 1, port))?;
            draft.output(port, bits)?;
        }
    }
    Ok(())
}

/// A module of as many things as a module may have: sums and exclusive ors over 300 registers, each over the one
/// before it and the first over an input, and all outputs.
///
/// # Errors
/// `NoMemory` where memory was refused.
pub(crate) fn large(alloc: Global) -> Result<Sample, SampleRefusal>
    ensures checked { IfOk result (λ s. IsChecked s.circuit s.pool) }
    ensures few { IfOk result (λ s. thing_count s.circuit s.pool ≤ 65535) }
{
    let mut m = Module::with_room(alloc, 650)?;
    registers(&mut m)?;
    let mut draft = Draft::new(alloc, m, 64_950)?;
    let mut last = draft.node(Make::Data)?;
    for k in 0..299 {
        last = column(&mut draft, k, last, 215)?;
    }
    let wide = draft.node(Make::Binary(Binary::Cat, last, last))?;
    outputs(&mut draft, wide)?;
    let rest = NODES.saturating_sub(draft.made());
    column(&mut draft, 299, wide, rest)?;
    draft.done()
}
