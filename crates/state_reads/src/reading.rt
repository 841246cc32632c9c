//! What the drop of a job reads at its first step.
ghost use Rattle.std.specs.Prelude.{◌≡◌, IfOk};
ghost use Rattle.trust_groups.specs.Settings.{Lines, settings};
ghost use Rattle.trust_groups.specs.View.{settings_of};
ghost use Rattle.union_merge.specs.Branch.{lines_at};
ghost use Rattle.node_model.specs.Jobs.{target_of};
ghost use Rattle.state_files.specs.Files.{branch_of};
ghost use Rattle.state_jobs.specs.Works.{work_of};
ghost use Rattle.state_reads.specs.Reads.{IsKeptFor};

use crate::kept::Kept;
use crate::known::{KnownLogs, id_at};
use annex_base::{NoMemory, RepoId, Text};
use log_lines::readings_are_exact;
use run_data::JobKind;
use state_files::Files;
use state_jobs::Work;
use std::alloc::Global;
use trust_groups::Settings;

/// The target of the drop of a job of this repository.
fn target(repo: u32, work: &Work) -> u32
    ensures { result ≡ target_of repo (work_of work.now) }
{
    match (work.what.kind, work.what.peer) {
        (_, None) => repo,
        (JobKind::MoveTo, Some(_)) => repo,
        (JobKind::Drop | JobKind::Get | JobKind::Copy | JobKind::MoveFrom, Some(peer)) => peer,
    }
}

/// What the drop of this job of a repository reads of these settings, where its key has these paths and these are the identifiers of
/// all repositories.
pub fn read_settings(
    alloc: Global,
    repo: u32,
    ids: &[RepoId],
    paths: &[Text],
    work: &Work,
    logs: &Settings,
) -> Result<Kept, NoMemory>
    ensures { IfOk result (λ k. (lines : Lines) → settings_of logs.now ≡ settings lines → IsKeptFor lines repo ids.now paths.now (work_of work.now) k) }
{
    // A law, for the proof: no line of a log names a repository without an identifier.
    readings_are_exact();
    let target = id_at(ids, target(repo, work));
    let known = KnownLogs::read(alloc, logs, &work.what.key, target, paths, ids)?;
    Ok(Kept {
        job: work.number,
        known,
    })
}

/// What the files say for the drop of this job of a repository, whose key has these paths, where these are the identifiers of all
/// repositories.
pub(crate) fn read_for(
    alloc: Global,
    repo: u32,
    ids: &[RepoId],
    paths: &[Text],
    work: &Work,
    files: &mut Files,
) -> Result<Kept, NoMemory>
    ensures kept { IfOk result (IsKeptFor (lines_at (branch_of files.old)) repo ids.now paths.now (work_of work.now)) }
    ensures files { branch_of files.new ≡ branch_of files.old }
{
    files.read()?;
    read_settings(alloc, repo, ids, paths, work, files.settings())
}
