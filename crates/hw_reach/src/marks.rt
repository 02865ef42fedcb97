ghost use Rattle.std.specs.Prelude.{◌≡◌, ◌<◌, ◌⊎◌, length};
ghost use Rattle.hw_pool.specs.Nodes.{EachChild};
ghost use Rattle.hw_module.specs.Reached.{IsChild};
ghost use Rattle.hw_reach.specs.Marking.{EachDriver, EachOfWrite, IsDriver, IsOfWrite, Marks};

use hw_expr::Net;
use hw_module::ArrayWrite;
use hw_pool::{NodeId, Op};

/// Marks a node.
pub(crate) fn mark(id: NodeId, marks: &mut [bool])
    requires live { id.0 < length marks.old }
    ensures { Marks (λ k. id.0 ≡ k) marks.old marks.new }
{
    marks[id.0 as usize] = true;
}

/// Marks a driver, if there is one.
pub(crate) fn mark_driver(driver: Option<Net>, marks: &mut [bool])
    requires live { EachDriver (λ k. k < length marks.old) driver }
    ensures { Marks (IsDriver driver) marks.old marks.new }
{
    if let Some(net) = driver {
        mark(net.id, marks);
    }
}

/// Marks what an array's write is made of, if there is one.
pub(crate) fn mark_write(write: Option<ArrayWrite>, marks: &mut [bool])
    requires live { EachOfWrite (λ k. k < length marks.old) write }
    ensures { Marks (IsOfWrite write) marks.old marks.new }
{
    if let Some(write) = write {
        mark_three(write.enable.id, write.addr.id, write.value.id, marks);
    }
}

/// Marks two nodes.
fn mark_two(a: NodeId, b: NodeId, marks: &mut [bool])
    requires first { a.0 < length marks.old }
    requires second { b.0 < length marks.old }
    ensures { Marks (λ k. (a.0 ≡ k) ⊎ (b.0 ≡ k)) marks.old marks.new }
{
    mark(a, marks);
    mark(b, marks);
}

/// Marks three nodes.
fn mark_three(a: NodeId, b: NodeId, c: NodeId, marks: &mut [bool])
    requires first { a.0 < length marks.old }
    requires second { b.0 < length marks.old }
    requires third { c.0 < length marks.old }
    ensures { Marks (λ k. (a.0 ≡ k) ⊎ ((b.0 ≡ k) ⊎ (c.0 ≡ k))) marks.old marks.new }
{
    mark(a, marks);
    mark_two(b, c, marks);
}

/// Marks the nodes that an operator names.
pub(crate) fn mark_children(op: Op, marks: &mut [bool])
    requires live { EachChild (λ k. k < length marks.old) op }
    ensures { Marks (IsChild op) marks.old marks.new }
{
    match op {
        Op::Lit(_) | Op::Input(_) | Op::Wire(_) | Op::Reg(_) => {}
        Op::Not(a) | Op::Slice(a, _, _) | Op::Read(_, a) => mark(a, marks),
        Op::And(a, b)
        | Op::Or(a, b)
        | Op::Xor(a, b)
        | Op::Add(a, b)
        | Op::Sub(a, b)
        | Op::Eq(a, b)
        | Op::Ltu(a, b)
        | Op::Cat(a, b) => mark_two(a, b, marks),
        Op::Mux(c, a, b) => mark_three(c, a, b, marks),
    }
}
