ghost use Rattle.std.specs.Prelude.{◌≡◌, ◌<◌, ◌≤◌, ◌^◌, ◌+◌, ℕ, List, length, Err, IfOk, OnOk};
ghost use Rattle.core_host.specs.declared.host.Port.{Port};
ghost use Rattle.core_host.specs.declared.host.Port.TheVariants.{Main};
ghost use Rattle.core_host.specs.Outside.{Appends, IsCut, Rose};
ghost use Rattle.hw_pool.specs.Nodes.{IsPool};
ghost use Rattle.hw_module.specs.Rows.{IsModule};
ghost use Rattle.module_netlist.specs.Means.{IsModuleText};
ghost use Rattle.plug_build.specs.World.{World};
ghost use Rattle.plug_api.specs.Accept.{IsFirstRefusal, IsLeft, IsLeftShort, MayBe};
ghost use Rattle.plug_api.specs.Picks.{SameKinds};
ghost use Rattle.plug_api.specs.declared.refusal.RuleRefusal.{RuleRefusal};
ghost use Rattle.plug_join.specs.Joined.{IsBuildable, pipe_share, rest_half};
ghost use Rattle.pipe_join.specs.Pipelined.{IsPipelined};
ghost use Rattle.core_gen.specs.Generated.{IsGenerated, IsPlanText};

use crate::GenRefusal;
use core_host::{Host, Port};
use hw_pool::Pool;
use pipe_join::join;
use plug_api::{Plan, Plugin, RuleRefusal, accept};
use stage_map::Config;
use std::alloc::Global;
use verilog_write::{WriteRefusal, write_module};

/// Joins the plug-ins of a plan and writes their module. Nothing is pushed before it is whole.
fn write_plan<H: Host>(
    alloc: Global,
    plan: &Plan,
    plugs: &Vec<Box<dyn Plugin>>,
    host: &mut H,
) -> Result<(), WriteRefusal>
    requires plan { IsBuildable (λ x. spec_now x) plugs.now.items plan.now }
    requires few { length plan.now.order < 2 ^ 32 }
    requires wanted { (d : _) → (pipe_share plan.now) + rest_half (λ x. spec_now x) plugs.now.items plan.now d 0 + rest_half (λ x. spec_now x) plugs.now.items plan.now d 0 ≤ plan.now.wanted }
    ensures addressed { plan.now.shape.reset_pc < 2 ^ 32 }
    ensures done { OnOk result ((text : List ℕ) × IsPlanText (λ x. spec_now x) (λ x plan part. builds x plan part) plugs.now.items plan.now text
        × Appends (H.pushed host.old Main) text (H.pushed host.new Main)) }
    ensures cut { (result ≡ Err WriteRefusal.WriteFault) → (text : List ℕ) × IsPlanText (λ x. spec_now x) (λ x plan part. builds x plan part) plugs.now.items plan.now text
        × IsCut (H.pushed host.old Main) text (H.pushed host.new Main) }
    ensures cause { (result ≡ Err WriteRefusal.WriteFault) → Rose (H.write_faults host.old) (H.write_faults host.new) }
    ensures memory { (result ≡ Err WriteRefusal.NoMemory) → host.new ≡ host.old }
    ensures others { (p : Port) → ¬ (p ≡ Main) → H.pushed host.new p ≡ H.pushed host.old p }
    ensures left { (n : ℕ) → H.left host.new n ≡ H.left host.old n }
    ensures files { H.files host.new ≡ H.files host.old }
    ensures numbers { (n : ℕ) → H.given host.old n → H.given host.new n }
    ensures names { (n : ℕ) → H.given host.old n → H.opened host.new n ≡ H.opened host.old n }
    ensures reads { H.read_faults host.old ≤ H.read_faults host.new }
    ensures writes { H.write_faults host.old ≤ H.write_faults host.new }
{
    let mut pool = Pool::new(alloc);
    match join(alloc, plan, plugs, &mut pool) {
        Ok(module) => write_module(alloc, &module, &pool, host),
        Err(_) => Err(WriteRefusal::NoMemory),
    }
}

/// Generates the text of a core on the main port: the plug-ins take the entries of the configuration and build, and the text is
/// that of their parts and the pipeline. It has one reading, which refines the machine of the claimed instructions. Nothing is
/// pushed before the core is whole.
///
/// # Errors
/// `Rules` exactly where a rule of acceptance fails, with the first that does. `WriteFault` where the port took a proper prefix
/// of the text. `NoMemory` where memory was refused. But for `WriteFault` the host is then as it was.
pub fn generate<H: Host>(
    alloc: Global,
    cfg: &Config,
    plugs: &mut Vec<Box<dyn Plugin>>,
    host: &mut H,
) -> Result<(), GenRefusal>
    requires config { MayBe cfg.now }
    requires few { length plugs.old.items < 2 ^ 32 }
    ensures done { OnOk result ((text : List ℕ)
        × IsGenerated (λ b. kind b) (λ b. taken b) (λ b. spec_now b) (λ b e. first_fault b e) (λ b e. spec_taken b e) (λ b plan part. builds b plan part) (λ b e plan part. builds_for b e plan part) plugs.old.items plugs.new.items cfg.now text
        × Appends (H.pushed host.old Main) text (H.pushed host.new Main)) }
    ensures cut { (result ≡ Err GenRefusal.WriteFault) → (text : List ℕ)
        × IsGenerated (λ b. kind b) (λ b. taken b) (λ b. spec_now b) (λ b e. first_fault b e) (λ b e. spec_taken b e) (λ b plan part. builds b plan part) (λ b e plan part. builds_for b e plan part) plugs.old.items plugs.new.items cfg.now text
        × IsCut (H.pushed host.old Main) text (H.pushed host.new Main) }
    ensures cause { (result ≡ Err GenRefusal.WriteFault) → Rose (H.write_faults host.old) (H.write_faults host.new) }
    ensures refused { (r : RuleRefusal) → result ≡ Err (GenRefusal.Rules r) → IsFirstRefusal (λ b. kind b) (λ b e. first_fault b e) (λ b e. spec_taken b e) plugs.old.items cfg.now r
        × IsLeft (λ b. kind b) (λ b. taken b) (λ b. spec_now b) (λ b e. first_fault b e) (λ b e. spec_taken b e) plugs.old.items plugs.new.items cfg.now r }
    ensures nothing { (r : RuleRefusal) → result ≡ Err (GenRefusal.Rules r) → host.new ≡ host.old }
    ensures short { result ≡ Err GenRefusal.NoMemory
        → IsLeftShort (λ b. kind b) (λ b. taken b) (λ b. spec_now b) (λ b e. first_fault b e) (λ b e. spec_taken b e) plugs.old.items plugs.new.items cfg.now }
    ensures memory { result ≡ Err GenRefusal.NoMemory → host.new ≡ host.old }
    ensures kept { SameKinds (λ b. kind b) (λ b e. first_fault b e) (λ b e. spec_taken b e) plugs.old.items plugs.new.items }
    ensures others { (p : Port) → ¬ (p ≡ Main) → H.pushed host.new p ≡ H.pushed host.old p }
    ensures left { (n : ℕ) → H.left host.new n ≡ H.left host.old n }
    ensures files { H.files host.new ≡ H.files host.old }
    ensures numbers { (n : ℕ) → H.given host.old n → H.given host.new n }
    ensures names { (n : ℕ) → H.given host.old n → H.opened host.new n ≡ H.opened host.old n }
    ensures reads { H.read_faults host.old ≤ H.read_faults host.new }
    ensures writes { H.write_faults host.old ≤ H.write_faults host.new }
{
    let plan = match accept(alloc, cfg, plugs) {
        Ok(plan) => plan,
        Err(RuleRefusal::NoMemory) => return Err(GenRefusal::NoMemory),
        Err(refusal) => return Err(GenRefusal::Rules { refusal }),
    };
    match write_plan(alloc, &plan, plugs, host) {
        Ok(()) => Ok(()),
        Err(WriteRefusal::WriteFault) => Err(GenRefusal::WriteFault),
        Err(WriteRefusal::NoMemory) => Err(GenRefusal::NoMemory),
    }
}
