//! The report of a script's run, line by line.

ghost use Rattle.std.specs.Prelude.{◌≡◌, ◌++◌, ◌<◌, ◌^◌, IfOk, OnOk, length, take};
ghost use Rattle.annex_base.specs.Lists.{Each};
ghost use Rattle.report_text.specs.Report.{changes_of, line_text, report, syncs_of, tree_changes};
ghost use Rattle.report_tables.specs.Walk.{IsAhead, IsWellFormed, ShowsKnown, StandsIn};
ghost use Rattle.run_paths.specs.Paths.{IsIndexOf};
ghost use Rattle.script_forms.specs.Changes.{as_change};

use crate::shown::put_shown;
use annex_base::NoMemory;
use report_tables::Walk;
use run_data::Run;
use run_paths::{PathIndex, trees_have_all_marks_before};
use script_commands::Action;
use script_lang::{Change, Command, change_of};
use shown_text::{put_ended, put_slot, put_sync};
use std::alloc::Global;
use sync_outcomes::{SyncJobs, jobs_between};

/// The report of a run of this script (own): for each line of the script that its job found no slot, the lines of the
/// jobs that ended and of the faults while it was done, the numbers of a sync, and what it shows; then those of the entries
/// after the last. Each sync goes over the entries before it, and each job that ends is looked up in all syncs so far (own).
pub fn report(alloc: Global, script: &[Command], run: &Run) -> Result<Vec<u8>, NoMemory>
    requires formed { Each IsWellFormed run.now.entries }
    requires ahead { Each IsAhead run.now.repos }
    requires few { length run.now.repos < 2 ^ 32 }
    requires known { Each (ShowsKnown (length run.now.repos)) script.now }
    ensures { IfOk result (λ text. text.items ≡ report script.now run.now) }
{
    // A law, for the proof: an index of some first marks is one of more.
    trees_have_all_marks_before();
    let mut out = Vec::new(alloc);
    let mut walk = Walk::new(alloc, run)?;
    let mut index = PathIndex::new(alloc)?;
    let mut from = 0;
    let mut changes = 0;
    let mut syncs = Vec::new(alloc);
    for (command, mark) in script.iter().zip(run.marks.as_slice()) {
        let place = *mark as usize;
        note_syncs(&mut syncs, run, from, place, command)?;
        put_line(
            &mut out,
            &mut walk,
            &mut index,
            run,
            syncs.as_slice(),
            from,
            place,
            changes,
            command,
        )?;
        changes += changes_of(command);
        from = place;
    }
    let told = syncs.as_slice();
    let entries = run.entries.as_slice();
    put_ended(&mut out, run, told, from, entries.len())?;
    Ok(out)
}

/// Adds what a line prints that made the entries from one place up to another, after lines that made so many changes
/// of the tree; the syncs are those so far, with its own.
fn put_line(
    out: &mut Vec<u8>,
    walk: &mut Walk,
    index: &mut PathIndex,
    run: &Run,
    syncs: &[SyncJobs],
    from: usize,
    upto: usize,
    changes: usize,
    command: &Command,
) -> Result<(), NoMemory>
    requires stands { StandsIn walk.old run.now }
    requires index { IsIndexOf (take changes run.now.tree) index.old }
    requires formed { Each IsWellFormed run.now.entries }
    requires ahead { Each IsAhead run.now.repos }
    requires few { length run.now.repos < 2 ^ 32 }
    requires known { ShowsKnown (length run.now.repos) command.now }
    ensures text { OnOk result (out.new.items ≡ out.old.items ++ line_text run.now syncs.now from upto changes command.now) }
    ensures walk { OnOk result (StandsIn walk.new run.now) }
    ensures index { OnOk result (IsIndexOf (take changes run.now.tree) index.new) }
{
    put_slot(out, run, from, upto, command)?;
    put_ended(out, run, syncs, from, upto)?;
    put_sync(out, run, from, upto, command)?;
    put_shown(out, walk, index, run, upto, changes, command)?;
    Ok(())
}

/// Takes note of the line's jobs, if it is a sync.
fn note_syncs(
    syncs: &mut Vec<SyncJobs>,
    run: &Run,
    from: usize,
    upto: usize,
    command: &Command,
) -> Result<(), NoMemory>
    ensures { OnOk result (syncs.new.items ≡ syncs.old.items ++ syncs_of run.now from upto command.now) }
{
    match command {
        Command::Does {
            action: Action::Sync { repo },
        } => syncs.push(jobs_between(run, *repo, from, upto))?,
        _ => {}
    }
    Ok(())
}

/// How many changes of the tree a line makes.
fn changes_of(command: &Command) -> usize
    ensures { result ≡ changes_of command.now }
{
    tree_changes(&change_of(command))
}

fn tree_changes(change: &Change<'_>) -> usize
    ensures { result ≡ tree_changes (as_change change.now) }
{
    match change {
        Change::Adds { .. } | Change::Names { .. } => 1,
        Change::Declares { .. }
        | Change::Puts { .. }
        | Change::Brings { .. }
        | Change::Waits { .. }
        | Change::Nothing => 0,
    }
}
