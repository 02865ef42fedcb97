ghost use Rattle.std.specs.Prelude.{◌≡◌, ℕ, ◌+◌, ◌<◌, ◌≤◌, ◌^◌, length, Err, IfOk, OnErr, OnOk};
ghost use Rattle.hw_pool.specs.Nodes.{IsPool};
ghost use Rattle.hw_pool.specs.Frame.{Adds};
ghost use Rattle.hw_module.specs.Checked.{IsChecked};
ghost use Rattle.hw_module.specs.Rows.{IsModule};
ghost use Rattle.module_netlist.specs.Written.{thing_count};
ghost use Rattle.service_ports.specs.Registry.{RegistryValue};
ghost use Rattle.plug_join.specs.Joined.{IsBuildable, pipe_share, rest_half};
ghost use Rattle.pipe_build.specs.Ready.{world_with};
ghost use Rattle.pipe_join.specs.Pipelined.{IsPipelined};

use crate::commits::commits_of;
use hw_module::Module;
use hw_pool::Pool;
use pipe_build::build_pipe;
use plug_api::{Plan, Plugin};
use plug_join::{JoinRefusal, Joined, build_boxes};
use std::alloc::Global;

/// Lets the boxes of a plan build, each by its two calls, and builds the pipeline of the plan between them: one module, of which
/// each thing has its driver, with no more things, nodes and drivers than a text may have. Whatever the answer, the nodes that were
/// live in the pool stay as they were; after a refusal they are all that is live.
///
/// # Errors
/// `Full` exactly where the live nodes and what is wanted are too many. `NoMemory` where memory was refused.
pub fn join(
    alloc: Global,
    plan: &Plan,
    plugs: &Vec<Box<dyn Plugin>>,
    pool: &mut Pool,
) -> Result<Module, JoinRefusal>
    requires plan { IsBuildable (λ x. spec_now x) plugs.now.items plan.now }
    requires few { length plan.now.order < 2 ^ 32 }
    requires wanted { (d : _) → (pipe_share plan.now) + rest_half (λ x. spec_now x) plugs.now.items plan.now d 0 + rest_half (λ x. spec_now x) plugs.now.items plan.now d 0 ≤ plan.now.wanted }
    ensures refused { OnErr result (pool.new.nodes ≡ pool.old.nodes) }
    ensures full { (wanted limit : ℕ) → result ≡ Err (JoinRefusal.Full wanted limit) → (wanted ≡ length pool.old.nodes + plan.now.wanted) × (limit ≡ 65535) × (65535 < length pool.old.nodes + plan.now.wanted) }
    ensures within { length pool.old.nodes + plan.now.wanted ≤ 65535 → OnErr result (result ≡ Err JoinRefusal.NoMemory) }
    ensures over { OnOk result ((n : ℕ) × Adds pool.old pool.new n) }
    ensures checked { IfOk result (λ m. IsChecked m pool.new) }
    ensures small { IfOk result (λ m. thing_count m pool.new ≤ 65535) }
    ensures ranges { IfOk result (λ m. IsModule m) }
    ensures nodes { IfOk result (λ m. IsPool pool.new.nodes) }
    ensures addressed { plan.now.shape.reset_pc < 2 ^ 32 }
    ensures pipelined { IfOk result (λ m. (reg : RegistryValue) × IsPipelined (λ x. spec_now x) (λ x plan part. builds x plan part) plugs.now.items plan.now (world_with pool.new m reg)) }
{
    let stages = plan.shape.stages;
    let reset_pc = plan.shape.reset_pc;
    let commits = match commits_of(alloc, plan, plugs) {
        Ok(commits) => commits,
        Err(_) => return Err(JoinRefusal::NoMemory),
    };
    match build_boxes(alloc, plan, plugs, pool) {
        Err(refusal) => Err(refusal),
        Ok(Joined { module, registry }) => {
            let mut module = module;
            build_pipe(&mut module, pool, &registry, &commits, stages, reset_pc);
            // Calls of both types, for what holds of all their values (`nodes` and `ranges`).
            let _ = pool.live();
            let _ = module.outs().len();
            Ok(module)
        }
    }
}
