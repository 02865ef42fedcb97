use hw_pool::{Node, NodeId, Op, Pool, PoolFault};
use std::alloc::Global;

/// Whether a pool has one node that was added, and its limit.
pub fn limit_is_right(alloc: Global) -> bool {
    let mut pool = Pool::new(alloc);
    if pool.live() != 0 || pool.reserve(65_535).is_err() {
        return false;
    }
    let one = Node {
        op: Op::Lit(1),
        width: 1,
        level: 0,
    };
    let id = pool.add(one);
    let full = PoolFault::Full {
        wanted: 65_536,
        limit: 65_535,
    };
    id == NodeId(0)
        && pool.live() == 1
        && pool.spare() == 65_534
        && *pool.get(id) == one
        && pool.reserve(65_535) == Err(full)
        && pool.reserve(65_534) == Ok(())
}
