//! What a repository is to do, by its branch and the tree as they stand.
ghost use Rattle.std.specs.Prelude.{◌≡◌, ◌<◌, length, map, IfOk};
ghost use Rattle.annex_base.specs.Lists.{Each};
ghost use Rattle.driver_model.specs.Driver.{Driver, DriverInput};
ghost use Rattle.driver_model.specs.Syncs.{job_for, plan_at};
ghost use Rattle.fleet_entries.specs.Stored.{store_view};
ghost use Rattle.fleet_entries.specs.AtDriver.{IsAtDriver, IsDriven};
ghost use Rattle.fleet_keys.specs.Jobs.{MayBeginAmong};

use annex_base::{NoMemory, RepoId};
use fleet_entries::Running;
use object_store::FailingKeeper;
use past_facts::kept_lines_read_as_all;
use run_data::RepoView;
use run_paths::trees_have_all_marks_before;
use std::alloc::Global;
use std::thread::Threads;
use sync_core::par_plan;
use trust_groups::Settings;
use wanted_rules::Action;

/// The identifiers of repositories, in order of number.
fn identifiers(alloc: Global, repos: &[RepoView]) -> Result<Vec<RepoId>, NoMemory>
    ensures { IfOk result (λ ids. ids.items ≡ map (λ repo. repo.id) repos.now) }
{
    Ok(repos.iter().map(|repo| repo.id).collect(alloc)?)
}

/// The plan of the repository, whose parts threads make. The cost grows with the lines of the branch, and with the number of keys times
/// that of repositories.
pub(crate) fn plan_of<R: Threads + Sync, K: FailingKeeper>(
    rt: &R,
    running: &mut Running<K>,
    repo: u32,
) -> Result<Vec<Action>, NoMemory>
    requires there { repo < length running.old.nodes }
    requires driven { IsDriven (λ k. store_view (K.contents k) (K.parts k) (K.failing k) (K.faults k)) running.old }
    ensures value { IfOk result (λ actions. (g : DriverInput) (d : Driver) → IsAtDriver (λ k. store_view (K.contents k) (K.parts k) (K.failing k) (K.faults k)) g d running.old → actions.items ≡ plan_at g repo d) }
    ensures may { IfOk result (λ actions. Each (λ action. MayBeginAmong (length running.old.nodes) repo (job_for action)) actions.items) }
    ensures same { running.new ≡ running.old }
{
    // Laws: the lines that a branch keeps read as all that were added, and none of the marks stands behind the entries so far.
    kept_lines_read_as_all();
    trees_have_all_marks_before();
    let branch = running.nodes.node(repo as usize).branch();
    let settings = Settings::read(running.alloc, branch)?;
    let ids = identifiers(running.alloc, running.run.repos.as_slice())?;
    running
        .index
        .follow(running.alloc, running.run.tree.as_slice())?;
    par_plan(
        rt,
        running.alloc,
        &settings,
        running.index.tree(),
        repo,
        &ids,
    )
}
