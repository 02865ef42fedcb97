use hw_gates::{add, and, cat, eq, lit, ltu, mux, not, or, slice, sub, xor};
use hw_pool::Pool;
use std::alloc::Global;

/// Whether each operator has its width.
pub fn widths_are_right(alloc: Global) -> bool {
    let mut pool = Pool::new(alloc);
    if pool.reserve(14).is_err() {
        return false;
    }
    let a = lit(&mut pool, 4, 12);
    let b = lit(&mut pool, 4, 10);
    let c = lit(&mut pool, 1, 1);
    let widths = [
        not(&mut pool, a).width,
        and(&mut pool, a, b).width,
        or(&mut pool, a, b).width,
        xor(&mut pool, a, b).width,
        add(&mut pool, a, b).width,
        sub(&mut pool, a, b).width,
        eq(&mut pool, a, b).width,
        ltu(&mut pool, a, b).width,
        mux(&mut pool, c, a, b).width,
        cat(&mut pool, a, c).width,
        slice(&mut pool, a, 2, 1).width,
    ];
    widths == [4, 4, 4, 4, 4, 4, 1, 1, 4, 5, 2]
}
