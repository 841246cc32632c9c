//! The running jobs of a repository, after some first entries of a run.

ghost use Rattle.std.specs.Prelude.{◌≡◌, ◌∷◌, ◌==◌, [], IfOk, List, OnOk, filter, if◌then◌else◌, not, option_copied, reverse, true};
ghost use Rattle.run_data.specs.declared.entry.Entry.{Entry};
ghost use Rattle.node_model.specs.Slots.{free_slot, uses};
ghost use Rattle.run_model.specs.Past.{is_of, jobs, jobs_after};
ghost use Rattle.crashed_jobs.specs.Crashed.{in_slot};

use annex_base::NoMemory;
use run_data::{Entry, EntryKind, Job};
use std::alloc::Global;
use std::marker::Model;

/// A job that runs, in one of the four slots of its repository.
#[derive(Drop)]
pub struct Running<'a> {
    number: u32,
    slot: u32,
    what: &'a Job,
}

impl<'a> Model for Running<'a> {
    ghost use Rattle.node_model.specs.Slots.{RunningJob};

    ghost Value = { RunningJob };

    ghost view = { λ j. record { number = j.number; slot = j.slot; what = j.what.now } };
}

impl<'a> Running<'a> {
    /// The job's number at its repository, from 1.
    pub(crate) fn number(&self) -> u32
        ensures { result ≡ self.now.number }
    {
        self.number
    }

    /// Which of the four slots the job has, from 0.
    fn slot(&self) -> u32
        ensures { result ≡ self.now.slot }
    {
        self.slot
    }

    pub fn what(&self) -> &'a Job
        ensures { result.now ≡ self.now.what }
    {
        self.what
    }
}

/// The running jobs of the repository, the newest first; the entries before stand in order. Those before the repository's
/// last crash aren't looked at twice.
pub fn running_jobs<'a>(
    alloc: Global,
    before: &'a [Entry],
    repo: u32,
) -> Result<Vec<Running<'a>>, NoMemory>
    ensures { IfOk result (λ running. running.items ≡ jobs (reverse before.now) repo) }
{
    let since = since_crash(before, repo);
    let mut running = Vec::new(alloc);
    for entry in since {
        note(&mut running, repo, entry)?;
    }
    Ok(running)
}

/// The entries after the last crash of the repository, which leaves it no running job.
fn since_crash(before: &[Entry], repo: u32) -> &[Entry]
    ensures { jobs (reverse result.now) repo ≡ jobs (reverse before.now) repo }
{
    let mut rest = before;
    while let Some((last, earlier)) = rest.split_last() {
        if is_crash(last, repo) {
            let (_, since) = before.split_at(rest.len());
            return since;
        }
        rest = earlier;
    }
    before
}

/// Whether the entry is a crash of the repository, after which no job of it runs.
fn is_crash(entry: &Entry, repo: u32) -> bool
    ensures { result ≡ true → (past : List Entry) → jobs (entry.now ∷ past) repo ≡ [] }
{
    if entry.repo != Some(repo) {
        return false;
    }
    match &entry.kind {
        EntryKind::Crash { .. } => true,
        _ => false,
    }
}

/// One more entry.
fn note<'a>(running: &mut Vec<Running<'a>>, repo: u32, entry: &'a Entry) -> Result<(), NoMemory>
    ensures { OnOk result (running.new.items ≡ (if is_of repo entry.now then jobs_after running.old.items entry.now.kind else running.old.items)) }
{
    if entry.repo == Some(repo) {
        note_kind(running, &entry.kind)?;
    }
    Ok(())
}

fn note_kind<'a>(running: &mut Vec<Running<'a>>, kind: &'a EntryKind) -> Result<(), NoMemory>
    ensures { OnOk result (running.new.items ≡ jobs_after running.old.items kind.now) }
{
    match kind {
        EntryKind::Begin { job, what } => begin(running, *job, what)?,
        EntryKind::End { job, .. } => end(running, *job),
        EntryKind::Crash { .. } => running.clear(),
        _ => {}
    }
    Ok(())
}

fn begin<'a>(running: &mut Vec<Running<'a>>, number: u32, what: &'a Job) -> Result<(), NoMemory>
    ensures { OnOk result (running.new.items ≡ record { number = number; slot = free_slot running.old.items; what = what.now } ∷ running.old.items) }
{
    let slot = free_slot(running.as_slice());
    running.insert(0, Running { number, slot, what })?;
    Ok(())
}

fn end(running: &mut Vec<Running<'_>>, number: u32)
    ensures { running.new.items ≡ filter (λ j. not (j.number == number)) running.old.items }
{
    running.retain(|job| job.number() != number);
}

fn free_slot(running: &[Running<'_>]) -> u32
    ensures { result ≡ free_slot running.now }
{
    if !uses(running, 0) {
        return 0;
    }
    if !uses(running, 1) {
        return 1;
    }
    if !uses(running, 2) {
        return 2;
    }
    3
}

fn uses(running: &[Running<'_>], slot: u32) -> bool
    ensures { result ≡ uses running.now slot }
{
    running.iter().any(|job| job.slot() == slot)
}

/// The job that runs in the slot, if one does.
pub fn in_slot<'a, 'b>(running: &'b [Running<'a>], slot: u32) -> Option<&'b Running<'a>>
    ensures { option_copied result ≡ in_slot running.now slot }
{
    running.iter().find(|job| job.slot() == slot)
}
