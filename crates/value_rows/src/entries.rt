use hw_module::{Module, Owner};
use hw_pool::Pool;
use plug_build::Builder;
use plug_kit::{exec_inputs, own_array, own_reg, predict_inputs};
use service_ports::{PredictPorts, Registry};
use std::alloc::{AllocError, Global};

/// Whether the second register is of entry 5, and the ninth forward wire has level 1.
fn are_owned(module: &Module) -> bool {
    let regs = module.regs();
    let wires = module.wires();
    regs.len() > 1 && regs[1].owner == Owner::Entry(5) && wires.len() > 8 && wires[8].level == 1
}

/// Whether what an entry makes and offers is its own.
pub fn entries_are_right(alloc: Global) -> Result<bool, AllocError> {
    let mut pool = Pool::new(alloc);
    if pool.reserve(8).is_err() {
        return Err(AllocError);
    }
    let module = Module::with_room(alloc, 16)?;
    let mut services = Registry::with_room(alloc, 1)?;
    let mut b = Builder::new(module, 3);
    let other = b.reg(4, None);
    let others = exec_inputs(&mut b);
    b.set_entry(5);
    let asked = predict_inputs(&mut b);
    let reg = b.reg(32, Some(1));
    let array = b.array(8, 2);
    let made = [
        other,
        others.go,
        others.clear,
        asked.pc,
        asked.word,
        reg,
        array,
    ];
    let told = [b.entry(), b.room(), own_reg(&b), own_array(&b)];
    let firsts = [b.first_wire(), b.first_array()];
    if pool.spare() == 0 {
        return Err(AllocError);
    }
    let next = b.reg_net(&mut pool, reg);
    let is_offered = services.predict().is_some();
    services.offer_predict(
        b.entry(),
        PredictPorts {
            pc: asked.pc,
            word: asked.word,
            next,
        },
    );
    let offers = [
        is_offered,
        services.predict().is_some(),
        services.fetch().is_some(),
    ];
    b.set_entry(4);
    let nothing = [b.first_wire(), b.first_reg(), b.first_array()];
    let module = b.into_module();
    Ok(
        made == [0, 0, 6, 7, 8, 1, 0]
            && told == [5, 4, 1, 0]
            && firsts == [Some(7), Some(0)]
            && nothing == [None, None, None]
            && offers == [false, true, false]
            && are_owned(&module),
    )
}
