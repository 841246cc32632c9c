//! Whether a job is at its drop.

ghost use Rattle.std.specs.Prelude.{◌≡◌, ◌&&◌, ◌||◌, ◌==◌, IfOk, not, reverse};
ghost use Rattle.node_model.specs.Rows.{option_is};
ghost use Rattle.node_model.specs.Slots.{job_by, job_of};
ghost use Rattle.run_model.specs.Logs.{has_stepped, in_drop, is_drop, is_quiet, is_step, starts_drop};
ghost use Rattle.run_model.specs.Past.{is_of};
ghost use Rattle.crashed_jobs.specs.Looks.{brings_to_drop, talk_ends};

use crate::asked::hears_has_it;
use annex_base::{Call, NoMemory};
use run_data::{By, Entry, EntryKind, FrameView, JobKind};
use std::alloc::Global;

/// Whether the job of the repository is a drop, or is done with its transfer; the entries before stand in order.
pub(crate) fn in_drop(
    alloc: Global,
    before: &[Entry],
    repo: u32,
    job: u32,
) -> Result<bool, NoMemory>
    ensures { IfOk result (λ b. b ≡ in_drop (reverse before.now) repo job) }
{
    let mut rest = before;
    while let Some((last, earlier)) = rest.split_last() {
        if brings_to_drop(alloc, earlier, repo, job, last)? {
            return Ok(true);
        }
        rest = earlier;
    }
    Ok(false)
}

/// Whether the entry is the repository's and brings its job to the drop.
fn brings_to_drop(
    alloc: Global,
    before: &[Entry],
    repo: u32,
    job: u32,
    entry: &Entry,
) -> Result<bool, NoMemory>
    ensures { IfOk result (λ b. b ≡ brings_to_drop (reverse before.now) repo job entry.now) }
{
    if entry.repo == Some(repo) {
        starts_drop(alloc, before, repo, job, entry)
    } else {
        Ok(false)
    }
}

fn starts_drop(
    alloc: Global,
    before: &[Entry],
    repo: u32,
    job: u32,
    entry: &Entry,
) -> Result<bool, NoMemory>
    ensures { IfOk result (λ b. b ≡ starts_drop (reverse before.now) repo job entry.now entry.now.kind) }
{
    match &entry.kind {
        EntryKind::Begin { job: number, what } => Ok(*number == job && is_drop(what.kind)),
        EntryKind::Gain { by, .. } => Ok(is_job(job_by(*by), job)),
        EntryKind::Talk { job: talker } => {
            if is_job(*talker, job) {
                talk_ends(alloc, before, repo, job, entry)
            } else {
                Ok(false)
            }
        }
        _ => Ok(false),
    }
}

/// Whether the transfer is done by this step of the job: what it was to bring was there at once, or its peer has it.
fn talk_ends(
    alloc: Global,
    before: &[Entry],
    repo: u32,
    job: u32,
    entry: &Entry,
) -> Result<bool, NoMemory>
    ensures { IfOk result (λ b. b ≡ talk_ends (reverse before.now) repo job entry.now) }
{
    match &entry.taken {
        Some(frame) => hears_has_it(alloc, before, repo, frame),
        None => Ok(is_empty(entry.sent.as_slice()) && !has_stepped(before, repo, job)),
    }
}

fn is_empty(sent: &[FrameView]) -> bool
    ensures { result ≡ is_quiet None sent.now }
{
    match sent {
        [] => true,
        [_, ..] => false,
    }
}

/// Whether the job has made a step.
fn has_stepped(before: &[Entry], repo: u32, job: u32) -> bool
    ensures { result ≡ has_stepped (reverse before.now) repo job }
{
    let mut rest = before;
    while let Some((last, earlier)) = rest.split_last() {
        if is_step_of(last, repo, job) {
            return true;
        }
        rest = earlier;
    }
    false
}

fn is_step_of(entry: &Entry, repo: u32, job: u32) -> bool
    ensures { result ≡ (is_of repo entry.now && is_step job entry.now.kind) }
{
    entry.repo == Some(repo) && is_step(job, &entry.kind)
}

fn is_step(job: u32, kind: &EntryKind) -> bool
    ensures { result ≡ is_step job kind.now }
{
    match kind {
        EntryKind::Begin { .. } => false,
        EntryKind::Fault { call, .. } if *call == Call::PutFile => false,
        _ => is_job(job_of(kind), job),
    }
}

fn is_job(of: Option<u32>, job: u32) -> bool
    ensures { result ≡ option_is of job }
{
    match of {
        Some(number) => number == job,
        None => false,
    }
}

fn job_of(kind: &EntryKind) -> Option<u32>
    ensures { result ≡ job_of kind.now }
{
    match kind {
        EntryKind::Begin { job, .. }
        | EntryKind::Bar { job, .. }
        | EntryKind::Order { job, .. }
        | EntryKind::End { job, .. } => Some(*job),
        EntryKind::Gain { by, .. }
        | EntryKind::Share { by, .. }
        | EntryKind::Gone { by, .. }
        | EntryKind::Fault { by, .. } => job_by(*by),
        EntryKind::Talk { job } => *job,
        _ => None,
    }
}

fn job_by(by: By) -> Option<u32>
    ensures { result ≡ job_by by }
{
    match by {
        By::Job(job) => Some(job),
        By::Script | By::Peer { .. } => None,
    }
}

pub(crate) fn is_drop(kind: JobKind) -> bool
    ensures { result ≡ is_drop kind }
{
    match kind {
        JobKind::Drop => true,
        JobKind::Get | JobKind::Copy | JobKind::MoveTo | JobKind::MoveFrom => false,
    }
}
