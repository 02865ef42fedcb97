//! What the pipeline drives makes each run of the module take the pipeline's step.
//!
//! The crate holds definitions and laws alone. `specs/Values` has, for each thing that the pipeline drives, the function of the
//! numbers of a cycle that it takes, in the equations of `pipe_nets`; `specs/Drives` says that it is driven so.
#![tactic(auto)]

ghost use Rattle.std.specs.Prelude.{◌≡◌, ℕ, ◌-◌, Bool, is_some, length};
ghost use Rattle.service_reg.specs.declared.service.Service.{Service};
ghost use Rattle.plug_law.specs.Pipeline.{Shape};
ghost use Rattle.plug_build.specs.World.{World};
ghost use Rattle.part_laws.specs.Registered.{execs_of, services_of};
ghost use Rattle.pipe_steps.specs.Drives.{PipeDrives};
ghost use Rattle.pipe_steps.specs.Numbers.{tail_from, things_from};
ghost use Rattle.pipe_steps.specs.Steps.{IsPipeline, PipelinesStep};

/// The law of the pipeline: where each register, forward wire, input of a service and output of the core that are the
/// pipeline's have drivers of these values, each run of the module out of reset takes the step of the pipeline that commits in
/// execute, on whatever inputs. This does nothing: its contract is the law.
pub fn pipelines_step()
    ensures steps { PipelinesStep }
{}

/// Things whose numbers follow each other are those of a pipeline, if they are driven as they should: each offer of Exec has its unit,
/// and the tail has its places. This does nothing: its contract is the law.
pub fn numbers_are_things()
    ensures pipeline { (takes : ℕ → Service → Bool) (w : World) (wire reg : ℕ) (shape : Shape) → shape.entries ≡ execs_of w.reg
        → shape.system ≡ is_some (services_of takes w.pool.nodes w.reg).system
        → PipeDrives w.design w.pool.nodes (things_from w.pool.nodes wire reg w.reg.execs (services_of takes w.pool.nodes w.reg) shape)
        → IsPipeline takes w (things_from w.pool.nodes wire reg w.reg.execs (services_of takes w.pool.nodes w.reg) shape) }
    ensures long { (reg places : ℕ) → length (tail_from reg places) ≡ places }
{}
