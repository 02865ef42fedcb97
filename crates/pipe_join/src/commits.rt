ghost use Rattle.std.specs.Prelude.{◌≡◌, ℕ, ◌<◌, ◌≤◌, IfOk, length, get_or};
ghost use Rattle.plug_api.specs.Spec.{is_commit};
ghost use Rattle.pipe_join.specs.Pipelined.{AreCommits};

use plug_api::{Place, Plan, Plugin};
use std::alloc::{AllocError, Global};

/// Whether a plug-in works in the stage of the commit.
fn commits_at(plugs: &Vec<Box<dyn Plugin>>, pick: usize) -> bool
    requires { pick < length plugs.now.items }
    ensures { (d : _) → result ≡ is_commit (spec_now (get_or plugs.now.items pick d)).place }
{
    match plugs[pick].spec().place {
        Place::Commit => true,
        Place::Execute => false,
        Place::Apart => false,
    }
}

/// Which entries work in the stage of the commit, by their numbers, for 32 entries.
pub(crate) fn commits_of(
    alloc: Global,
    plan: &Plan,
    plugs: &Vec<Box<dyn Plugin>>,
) -> Result<Vec<bool>, AllocError>
    requires picked { (entry : ℕ) → entry < length plan.now.picks → get_or plan.now.picks entry 0 < length plugs.now.items }
    ensures many { IfOk result (λ c. 32 ≤ length c.items) }
    ensures are { IfOk result (λ c. AreCommits (λ x. spec_now x) plugs.now.items plan.now.picks (length plan.now.picks) c.items) }
{
    let mut commits = Vec::new(alloc);
    let picks = plan.picks.items();
    for entry in 0..picks.len() {
        let pick = picks[entry] as usize;
        commits.push(commits_at(plugs, pick))?;
    }
    for _more in picks.len()..32 {
        commits.push(false)?;
    }
    Ok(commits)
}
