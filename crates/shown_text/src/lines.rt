//! The lines of the entries between two places of a run: of jobs that ended, of crashes and of faults.

ghost use Rattle.std.specs.Prelude.{◌≡◌, ◌++◌, ◌&&◌, nat_lt, OnOk, Some, reverse, slice_get, option_copied};
ghost use Rattle.node_model.specs.Slots.{is_begin};
ghost use Rattle.shown_text.specs.Lines.{action_slot, begins_job, end_line, entry_line, fault_line, noslot_line, outcome_lines, slot_text, told_line};

use crate::crashes::put_crashed;
use annex_base::{Call, NoMemory};
use journal_text::begun_job;
use run_data::{Entry, EntryKind, Job, Outcome, RepoView, Run};
use run_text::{put_begun, put_name, put_outcome};
use script_commands::{Action, Command};
use script_words::call_text;
use std::alloc::AllocError;
use sync_outcomes::{SyncJobs, tells_end};

/// Adds that no slot was free, where the line begins a job and has none; the line made the entries from one place of
/// the run up to another.
pub fn put_slot(
    out: &mut Vec<u8>,
    run: &Run,
    from: usize,
    upto: usize,
    command: &Command,
) -> Result<(), AllocError>
    ensures { OnOk result (out.new.items ≡ out.old.items ++ slot_text run.now from upto command.now) }
{
    match command {
        Command::Does { action } => put_slot_of(out, run, from, upto, action)?,
        Command::Repo { .. }
        | Command::Damage { .. }
        | Command::Par { .. }
        | Command::Shows { .. } => {}
    }
    Ok(())
}

/// Adds that no slot was free, where the action begins a job and has none.
fn put_slot_of(
    out: &mut Vec<u8>,
    run: &Run,
    from: usize,
    upto: usize,
    action: &Action,
) -> Result<(), AllocError>
    ensures { OnOk result (out.new.items ≡ out.old.items ++ action_slot run.now from upto action.now) }
{
    match action {
        Action::Run { repo, .. } | Action::Begin { repo, .. } => {
            put_noslot(out, run, from, upto, *repo)?
        }
        Action::Have { .. }
        | Action::SetPart { .. }
        | Action::Add { .. }
        | Action::File { .. }
        | Action::Set { .. }
        | Action::Raw { .. }
        | Action::Merge { .. }
        | Action::Compact { .. }
        | Action::Sync { .. }
        | Action::Turns { .. }
        | Action::Settle
        | Action::Close { .. }
        | Action::Crash { .. }
        | Action::Wait { .. }
        | Action::Fail { .. } => {}
    }
    Ok(())
}

fn put_noslot(
    out: &mut Vec<u8>,
    run: &Run,
    from: usize,
    upto: usize,
    repo: u32,
) -> Result<(), AllocError>
    ensures { OnOk result (out.new.items ≡ out.old.items ++ noslot_line run.now from upto repo) }
{
    if !has_begun(run, from, upto, repo) {
        out.extend_from_slice(b"noslot ")?;
        put_name(out, run.repos.as_slice(), repo)?;
        out.push(b'\n')?;
    }
    Ok(())
}

/// Whether the first entry from one place up to another is the beginning of a job of the repository.
fn has_begun(run: &Run, from: usize, upto: usize, repo: u32) -> bool
    ensures { result ≡ (nat_lt from upto && begins_job repo (slice_get run.now.entries from)) }
{
    from < upto && begins_job(run.entries.as_slice().get(from), repo)
}

/// Whether the entry is the beginning of a job of the repository.
fn begins_job(entry: Option<&Entry>, repo: u32) -> bool
    ensures { result ≡ begins_job repo (option_copied entry.entry) }
{
    match entry {
        Some(entry) => entry.repo == Some(repo) && is_begin(&entry.kind),
        None => false,
    }
}

fn is_begin(kind: &EntryKind) -> bool
    ensures { result ≡ is_begin kind.now }
{
    match kind {
        EntryKind::Begin { .. } => true,
        _ => false,
    }
}

/// Adds the lines of the entries from one place of a run up to another, with these syncs: one for each job that ends, also
/// by a crash, but for those of syncs that are done; and one for each fault. For each job that ends it asks each sync (own).
pub fn put_ended(
    out: &mut Vec<u8>,
    run: &Run,
    syncs: &[SyncJobs],
    from: usize,
    upto: usize,
) -> Result<(), NoMemory>
    ensures { OnOk result (out.new.items ≡ out.old.items ++ outcome_lines run.now syncs.now from upto) }
{
    let repos = run.repos.as_slice();
    let entries = run.entries.as_slice();
    for place in from..upto.min(entries.len()) {
        let (before, _) = entries.split_at(place);
        put_entry_line(out, repos, syncs, before, &entries[place])?;
    }
    Ok(())
}

/// Adds the lines of an entry, if it ends jobs or is a fault; the entries before it stand in order.
fn put_entry_line(
    out: &mut Vec<u8>,
    repos: &[RepoView],
    syncs: &[SyncJobs],
    before: &[Entry],
    entry: &Entry,
) -> Result<(), NoMemory>
    ensures { OnOk result (out.new.items ≡ out.old.items ++ entry_line repos.now syncs.now (reverse before.now) (Some entry.now)) }
{
    let Some(repo) = entry.repo else {
        return Ok(());
    };
    match &entry.kind {
        EntryKind::End { job, outcome } => {
            put_told_line(out, repos, syncs, before, repo, *job, outcome)?
        }
        EntryKind::Fault { call, .. } => put_fault_line(out, repos, repo, *call)?,
        EntryKind::Crash { .. } => put_crashed(out, repos, before, repo)?,
        _ => {}
    }
    Ok(())
}

fn put_told_line(
    out: &mut Vec<u8>,
    repos: &[RepoView],
    syncs: &[SyncJobs],
    before: &[Entry],
    repo: u32,
    job: u32,
    outcome: &Outcome,
) -> Result<(), AllocError>
    ensures { OnOk result (out.new.items ≡ out.old.items ++ told_line repos.now syncs.now (reverse before.now) repo job outcome.now) }
{
    if tells_end(syncs, repo, job, outcome) {
        put_end_line(out, repos, repo, begun_job(before, repo, job), outcome)?;
    }
    Ok(())
}

fn put_fault_line(
    out: &mut Vec<u8>,
    repos: &[RepoView],
    repo: u32,
    call: Call,
) -> Result<(), AllocError>
    ensures { OnOk result (out.new.items ≡ out.old.items ++ fault_line repos.now repo call) }
{
    out.extend_from_slice(b"fault ")?;
    put_name(out, repos, repo)?;
    out.push(b' ')?;
    out.extend_from_slice(call_text(call))?;
    out.push(b'\n')?;
    Ok(())
}

pub(crate) fn put_end_line(
    out: &mut Vec<u8>,
    repos: &[RepoView],
    repo: u32,
    job: Option<&Job>,
    outcome: &Outcome,
) -> Result<(), AllocError>
    ensures { OnOk result (out.new.items ≡ out.old.items ++ end_line repos.now repo (option_copied job.entry) outcome.now) }
{
    put_begun(out, repos, repo, job)?;
    put_outcome(out, repos, job, outcome)?;
    out.push(b'\n')?;
    Ok(())
}
