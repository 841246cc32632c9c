//! How the jobs of a run ended.

ghost use Rattle.std.specs.Prelude.{◌≡◌, ◌≤◌, ◌<◌, ◌+◌, ◌^◌, ◌∷◌, ◌==◌, [], IfOk, List, OnOk, filter, if◌then◌else◌, length, not, reverse};
ghost use Rattle.run_data.specs.declared.entry.Entry.{Entry};
ghost use Rattle.run_model.specs.Past.{is_of};
ghost use Rattle.storm_line.specs.Counts.{done_by, done_count, done_jobs, is_done, refused_count, refused_jobs};
ghost use Rattle.storm_line.specs.Running.{HasCounted, numbers_after, refused_by_of};

use annex_base::NoMemory;
use run_data::{Entry, EntryKind, Outcome, Run};
use std::alloc::Global;

/// How many jobs were done, and how many ended otherwise.
#[derive(Clone, Copy, Debug)]
pub(crate) struct Ended {
    pub(crate) done: u64,
    pub(crate) refused: u64,
}

/// The numbers of the jobs of a repository that run after some first entries of a run, the newest first, and how those before them
/// ended.
#[derive(Drop)]
struct Jobs {
    running: Vec<u32>,
    done: u64,
    refused: u64,
}

/// How the jobs of a run ended.
pub(crate) fn ended_jobs(alloc: Global, run: &Run) -> Result<Ended, NoMemory>
    requires { length run.now.repos ≤ 16 }
    ensures done { IfOk result (λ ended. ended.done ≡ done_count run.now) }
    ensures refused { IfOk result (λ ended. ended.refused ≡ refused_count run.now) }
{
    let mut all = Ended {
        done: 0,
        refused: 0,
    };
    let entries = run.entries.as_slice();
    for repo in 0..run.repos.as_slice().len() as u32 {
        let ended = jobs_of(alloc, entries, repo)?;
        all.done += ended.done;
        all.refused += ended.refused;
    }
    Ok(all)
}

/// How the jobs of a repository ended.
fn jobs_of(alloc: Global, entries: &[Entry], repo: u32) -> Result<Ended, NoMemory>
    ensures done { IfOk result (λ ended. ended.done ≡ done_jobs (reverse entries.now) repo) }
    ensures refused { IfOk result (λ ended. ended.refused ≡ refused_jobs (reverse entries.now) repo) }
    ensures few { IfOk result (λ ended. ended.done + ended.refused ≤ length entries.now) }
{
    let running = Vec::new(alloc);
    let mut jobs = Jobs {
        running,
        done: 0,
        refused: 0,
    };
    for entry in entries {
        add(&mut jobs, entry, repo)?;
    }
    Ok(Ended {
        done: jobs.done,
        refused: jobs.refused,
    })
}

/// One more entry.
fn add(jobs: &mut Jobs, entry: &Entry, repo: u32) -> Result<(), NoMemory>
    requires { jobs.old.done + jobs.old.refused + length jobs.old.running.items + 1 < 2 ^ 64 }
    ensures counted { OnOk result ((past : List Entry) → HasCounted jobs.old past repo → HasCounted jobs.new (entry.now ∷ past) repo) }
    ensures few { OnOk result (jobs.new.done + jobs.new.refused + length jobs.new.running.items ≤ jobs.old.done + jobs.old.refused + length jobs.old.running.items + 1) }
{
    if is_of(entry, repo) {
        change(jobs, &entry.kind)?;
        return Ok(());
    }
    Ok(())
}

/// Whether the entry is one of the repository.
fn is_of(entry: &Entry, repo: u32) -> bool
    ensures { result ≡ is_of repo entry.now }
{
    entry.repo == Some(repo)
}

/// What an entry of the repository changes.
fn change(jobs: &mut Jobs, kind: &EntryKind) -> Result<(), NoMemory>
    requires { jobs.old.done + jobs.old.refused + length jobs.old.running.items + 1 < 2 ^ 64 }
    ensures running { OnOk result (jobs.new.running.items ≡ numbers_after jobs.old.running.items kind.now) }
    ensures done { OnOk result (jobs.new.done ≡ jobs.old.done + done_by kind.now) }
    ensures refused { OnOk result (jobs.new.refused ≡ jobs.old.refused + refused_by_of (length jobs.old.running.items) kind.now) }
    ensures few { OnOk result (jobs.new.done + jobs.new.refused + length jobs.new.running.items ≤ jobs.old.done + jobs.old.refused + length jobs.old.running.items + 1) }
{
    match kind {
        EntryKind::Begin { job, .. } => begin(jobs, *job)?,
        EntryKind::End { job, outcome } => end(jobs, *job, outcome),
        EntryKind::Crash { .. } => crash(jobs),
        _ => {}
    }
    Ok(())
}

/// A job begins.
fn begin(jobs: &mut Jobs, job: u32) -> Result<(), NoMemory>
    ensures running { OnOk result (jobs.new.running.items ≡ job ∷ jobs.old.running.items) }
    ensures done { OnOk result (jobs.new.done ≡ jobs.old.done) }
    ensures refused { OnOk result (jobs.new.refused ≡ jobs.old.refused) }
{
    jobs.running.insert(0, job)?;
    Ok(())
}

/// A job ends.
fn end(jobs: &mut Jobs, job: u32, outcome: &Outcome)
    requires { jobs.old.done + jobs.old.refused + 1 < 2 ^ 64 }
    ensures running { jobs.new.running.items ≡ filter (λ n. not (n == job)) jobs.old.running.items }
    ensures fewer { length jobs.new.running.items ≤ length jobs.old.running.items }
    ensures done { jobs.new.done ≡ jobs.old.done + (if is_done outcome.now then 1 else 0) }
    ensures refused { jobs.new.refused ≡ jobs.old.refused + (if is_done outcome.now then 0 else 1) }
{
    remove(&mut jobs.running, job);
    if is_done(outcome) {
        jobs.done += 1;
    } else {
        jobs.refused += 1;
    }
}

/// All running jobs end.
fn crash(jobs: &mut Jobs)
    requires { jobs.old.refused + length jobs.old.running.items + 1 < 2 ^ 64 }
    ensures running { jobs.new.running.items ≡ [] }
    ensures done { jobs.new.done ≡ jobs.old.done }
    ensures refused { jobs.new.refused ≡ jobs.old.refused + length jobs.old.running.items }
{
    jobs.refused += jobs.running.len() as u64;
    jobs.running.clear();
}

fn remove(running: &mut Vec<u32>, job: u32)
    ensures numbers { running.new.items ≡ filter (λ n. not (n == job)) running.old.items }
    ensures fewer { length running.new.items ≤ length running.old.items }
{
    running.retain(|number| *number != job);
}

/// Whether the job is done.
fn is_done(outcome: &Outcome) -> bool
    ensures { result ≡ is_done outcome.now }
{
    match outcome {
        Outcome::Dropped(_)
        | Outcome::DroppedAbsent(_)
        | Outcome::Got { .. }
        | Outcome::Copied { .. } => true,
        Outcome::Refused(_) | Outcome::TransferRefused(_) => false,
    }
}
