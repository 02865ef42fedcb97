ghost use Rattle.std.specs.Prelude.{◌≡◌, ℕ, ◌+◌, ◌<◌, ◌≤◌, ◌^◌, [], length, replicate, Err, IfOk, None, OnErr, OnOk};
ghost use Rattle.hw_pool.specs.Nodes.{PoolValue};
ghost use Rattle.hw_pool.specs.Frame.{Adds};
ghost use Rattle.hw_module.specs.Checked.{DriversFit};
ghost use Rattle.plug_build.specs.Fits.{WorldFits};
ghost use Rattle.plug_join.specs.Joined.{IsBuildable, IsJoined, IsLeft, joined_world, rest_half, pipe_share, size_of};

use crate::early::early_all;
use crate::late::late_all;
use hw_module::Module;
use hw_pool::{Pool, PoolFault};
use plug_api::{Plan, Plugin};
use plug_build::Builder;
use service_ports::Registry;
use std::alloc::{AllocError, Global};

/// Why nothing was joined.
#[derive(Clone, Copy, Debug, PartialEq, Eq)]
pub enum JoinRefusal {
    Full { wanted: u64, limit: u32 },
    NoMemory,
}

/// What the boxes built.
#[derive(Debug, Drop)]
pub struct Joined {
    pub module: Module,
    pub registry: Registry,
}

/// Lets the boxes of a plan build, each by its two calls. The live nodes of the pool stay as they were.
///
/// # Errors
/// `Full` exactly where the live nodes and what is wanted are too many. `NoMemory` where memory was refused.
pub fn build_boxes(
    alloc: Global,
    plan: &Plan,
    plugs: &Vec<Box<dyn Plugin>>,
    pool: &mut Pool,
) -> Result<Joined, JoinRefusal>
    requires plan { IsBuildable (λ x. spec_now x) plugs.now.items plan.now }
    requires few { length plan.now.order < 2 ^ 32 }
    requires wanted { (d : _) → (pipe_share plan.now) + rest_half (λ x. spec_now x) plugs.now.items plan.now d 0 + rest_half (λ x. spec_now x) plugs.now.items plan.now d 0 ≤ plan.now.wanted }
    ensures refused { OnErr result (pool.new.nodes ≡ pool.old.nodes) }
    ensures over { OnOk result ((n : ℕ) × Adds pool.old pool.new n) }
    ensures full { (wanted limit : ℕ) → result ≡ Err (JoinRefusal.Full wanted limit) → (wanted ≡ length pool.old.nodes + plan.now.wanted) × (limit ≡ 65535) × (65535 < length pool.old.nodes + plan.now.wanted) }
    ensures within { length pool.old.nodes + plan.now.wanted ≤ 65535 → OnErr result (result ≡ Err JoinRefusal.NoMemory) }
    ensures small { IfOk result (λ j. length pool.old.nodes + plan.now.wanted ≤ 65535) }
    ensures spent { IfOk result (λ j. size_of (joined_world pool.new j) + pipe_share plan.now ≤ length pool.old.nodes + plan.now.wanted) }
    ensures fits { IfOk result (λ j. WorldFits (joined_world pool.new j)) }
    ensures left { IfOk result (λ j. IsLeft plan.now (joined_world pool.new j)) }
    ensures joined { IfOk result (λ j. IsJoined (λ x. spec_now x) (λ x plan part. builds x plan part) plugs.now.items plan.now (joined_world pool.new j)) }
{
    match pool.reserve(plan.wanted) {
        Err(PoolFault::Full { wanted, limit }) => Err(JoinRefusal::Full { wanted, limit }),
        Err(PoolFault::NoMemory) => Err(JoinRefusal::NoMemory),
        Ok(()) => match rooms(alloc, plan) {
            Err(_) => Err(JoinRefusal::NoMemory),
            Ok(Joined { module, registry }) => {
                let mut b = Builder::new(module, 0);
                let mut reg = registry;
                early_all(plugs, &mut b, pool, plan, &mut reg);
                late_all(plugs, &mut b, pool, plan, &reg);
                Ok(Joined {
                    module: b.into_module(),
                    registry: reg,
                })
            }
        },
    }
}

/// An empty module and registry, with the room of a plan.
fn rooms(alloc: Global, plan: &Plan) -> Result<Joined, AllocError>
    requires few { length plan.now.order < 2 ^ 32 }
    ensures module { IfOk result (λ j. j.module ≡ record { wires = []; regs = []; arrays = []; outs = replicate 30 None; room = plan.now.wanted }) }
    ensures drivers { IfOk result (λ j. (pool : PoolValue) → DriversFit j.module pool) }
    ensures registry { IfOk result (λ j. j.registry ≡ record { fetch = None; predict = None; decoder = None; regfile = None; hazard = None; databus = None; system = None; execs = []; room = length plan.now.order }) }
{
    let module = Module::with_room(alloc, plan.wanted)?;
    let registry = Registry::with_room(alloc, plan.order.items().len() as u32)?;
    Ok(Joined { module, registry })
}
