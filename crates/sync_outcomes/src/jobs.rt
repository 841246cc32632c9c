//! The jobs of syncs, and whether a job's end is told.

ghost use Rattle.std.specs.Prelude.{◌≡◌, ◌&&◌, reverse};
ghost use Rattle.std.specs.List.{list_any};
ghost use Rattle.node_model.specs.Slots.{is_begin};
ghost use Rattle.run_model.specs.Past.{begun_count, is_of};
ghost use Rattle.run_model.specs.Safety.{past_at};
ghost use Rattle.run_model.specs.Syncs.{has_job, is_refused, jobs_between, tells_end};

use run_data::{Entry, EntryKind, Outcome, Run};
use std::marker::Model;

/// The jobs of a sync: those of a repository with numbers past one, up to another.
#[derive(Drop)]
pub struct SyncJobs {
    repo: u32,
    past: usize,
    upto: usize,
}

impl Model for SyncJobs {
    ghost use Rattle.run_model.specs.Syncs.{SyncJobs as Jobs};

    ghost Value = { Jobs };

    ghost view = { λ x. record { repo = x.repo; past = x.past; upto = x.upto } };
}

impl SyncJobs {
    fn has_job(&self, repo: u32, job: u32) -> bool
        ensures { result ≡ has_job repo job self.now }
    {
        self.repo == repo && self.past < job as usize && job as usize <= self.upto
    }
}

/// The jobs that a repository of the run began from one place up to another; it goes over the entries before these.
pub fn jobs_between(run: &Run, repo: u32, from: usize, upto: usize) -> SyncJobs
    ensures { result ≡ jobs_between run.now repo from upto }
{
    let past = begun_count(before(run, from), repo);
    let upto = begun_count(before(run, upto), repo);
    SyncJobs { repo, past, upto }
}

/// The entries before a place, in the order of the run; all of them where the place is past the end.
pub(crate) fn before(run: &Run, place: usize) -> &[Entry]
    ensures { reverse result.now ≡ past_at run.now place }
{
    let entries = run.entries.as_slice();
    let (before, _) = entries.split_at(entries.len().min(place));
    before
}

/// How many jobs the repository has begun; the entries before stand in order.
pub(crate) fn begun_count(before: &[Entry], repo: u32) -> usize
    ensures { result ≡ begun_count (reverse before.now) repo }
{
    let mut count = 0;
    for entry in before {
        if begins_job(entry, repo) {
            count += 1;
        }
    }
    count
}

fn begins_job(entry: &Entry, repo: u32) -> bool
    ensures { result ≡ (is_of repo entry.now && is_begin entry.now.kind) }
{
    entry.repo == Some(repo) && is_begin(&entry.kind)
}

fn is_begin(kind: &EntryKind) -> bool
    ensures { result ≡ is_begin kind.now }
{
    match kind {
        EntryKind::Begin { .. } => true,
        _ => false,
    }
}

/// Whether the job of a repository tells that it ended so, with these syncs; it asks each of them (own).
pub fn tells_end(syncs: &[SyncJobs], repo: u32, job: u32, outcome: &Outcome) -> bool
    ensures { result ≡ tells_end syncs.now repo job outcome.now }
{
    is_refused(outcome) || !is_of_some(syncs, repo, job)
}

fn is_of_some(syncs: &[SyncJobs], repo: u32, job: u32) -> bool
    ensures { result ≡ list_any (has_job repo job) syncs.now }
{
    syncs.iter().any(|sync| sync.has_job(repo, job))
}

pub(crate) fn is_refused(outcome: &Outcome) -> bool
    ensures { result ≡ is_refused outcome.now }
{
    match outcome {
        Outcome::Refused(_) | Outcome::TransferRefused(_) => true,
        _ => false,
    }
}
