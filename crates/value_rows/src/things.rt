use hw_module::{Module, ModuleFault, Owner, Thing};
use hw_pool::Pool;
use std::alloc::{AllocError, Global};

fn undriven(thing: Thing) -> Result<(), ModuleFault> {
    Err(ModuleFault::Undriven { thing })
}

/// Whether the first undriven thing is named.
pub fn undriven_are_named(alloc: Global) -> Result<bool, AllocError> {
    let mut pool = Pool::new(alloc);
    if pool.reserve(8).is_err() {
        return Err(AllocError);
    }
    let mut parts = Module::with_room(alloc, 8)?;
    let bare = parts.check(&pool);
    let array = parts.array(Owner::Pipe, 8, 5);
    let with_array = parts.check(&pool);
    let reg = parts.reg(Owner::Entry(3), 8, Some(255));
    let with_reg = parts.check(&pool);
    let wire = parts.wire(Owner::Entry(3), 8, 4);
    let with_wire = parts.check(&pool);
    let room = parts.room();
    let old = parts.reg_net(&mut pool, reg);
    parts.drive(&pool, wire, old);
    let wire_driven = parts.check(&pool);
    let now = parts.wire_net(&mut pool, wire);
    parts.next(&pool, reg, now);
    let reg_driven = parts.check(&pool);
    let found = [
        bare,
        with_array,
        with_reg,
        with_wire,
        wire_driven,
        reg_driven,
    ];
    let wanted = [
        undriven(Thing::Out(2)),
        undriven(Thing::Array(0)),
        undriven(Thing::Reg(0)),
        undriven(Thing::Wire(0)),
        undriven(Thing::Reg(0)),
        undriven(Thing::Array(0)),
    ];
    Ok(found == wanted && [array, reg, wire, room] == [0, 0, 0, 5])
}
