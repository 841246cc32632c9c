//! What a repository is to do.
ghost use Rattle.std.specs.Prelude.{◌≡◌, ◌++◌, ◌<◌, ◌^◌, [], IfOk, OnOk, length, map};
ghost use Rattle.trust_groups.specs.View.{settings_of};
ghost use Rattle.run_paths.specs.Paths.{IsIndexOf, with_marks};
ghost use Rattle.report_text.specs.Report.{planned_text};

use annex_base::{NoMemory, RepoId};
use run_data::{RepoView, Run, TreeMark};
use run_paths::PathIndex;
use shown_text::put_plan;
use std::alloc::Global;
use sync_core::plan;
use trust_groups::Settings;

/// Adds what a repository is to do by these settings, for the keys of this tree.
pub(crate) fn put_plan_of(
    out: &mut Vec<u8>,
    index: &mut PathIndex,
    run: &Run,
    tree: &[TreeMark],
    repo: u32,
    settings: &Settings,
) -> Result<(), NoMemory>
    requires index { IsIndexOf tree.now index.old }
    requires known { repo < length run.now.repos }
    requires few { length run.now.repos < 2 ^ 32 }
    ensures text { OnOk result (out.new.items ≡ out.old.items ++ planned_text run.now repo (settings_of settings.now) (with_marks [] tree.now)) }
    ensures index { IsIndexOf tree.now index.new }
{
    let alloc = *out.allocator();
    let repos = identifiers(alloc, run.repos.as_slice())?;
    index.follow(alloc, tree)?;
    let actions = plan(alloc, settings, index.tree(), repo, &repos)?;
    put_plan(out, run, repo, &actions)?;
    Ok(())
}

/// The identifiers of repositories, in order of number.
fn identifiers(alloc: Global, repos: &[RepoView]) -> Result<Vec<RepoId>, NoMemory>
    ensures { IfOk result (λ ids. ids.items ≡ map (λ repo. repo.id) repos.now) }
{
    let mut ids = Vec::new(alloc);
    for repo in repos {
        ids.push(repo.id)?;
    }
    Ok(ids)
}
