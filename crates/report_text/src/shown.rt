//! What the lines of a script show.
ghost use Rattle.std.specs.Prelude.{◌≡◌, ◌++◌, ◌<◌, ◌^◌, ℕ, [], OnOk, length, take};
ghost use Rattle.annex_base.specs.Lists.{Each};
ghost use Rattle.trust_groups.specs.View.{settings_of};
ghost use Rattle.run_paths.specs.Paths.{IsIndexOf, with_marks};
ghost use Rattle.journal_text.specs.Journal.{journal_of};
ghost use Rattle.report_tables.specs.Before.{row_at};
ghost use Rattle.report_tables.specs.Walk.{IsAhead, IsOfKnown, IsWellFormed, KnowsRow, ShowsKnown, StandsAt, StandsIn};
ghost use Rattle.report_text.specs.Report.{presence_text, show_text, shown_by, wants_at};
ghost use Rattle.shown_text.specs.Row.{row_text};

use crate::plans::put_plan_of;
use crate::totals::put_totals;
use annex_base::{NoMemory, Text};
use journal_text::put_journal;
use report_tables::Walk;
use run_data::{Run, TreeMark};
use run_paths::PathIndex;
use run_text::{put_key, put_names};
use script_lang::{Command, NamedKey, Showing};
use shown_text::{
    put_claims, put_file, put_files, put_level, put_location, put_numbers_for, put_row, put_wants,
};
use std::alloc::AllocError;
use trust_groups::Settings;

/// Adds what a line of a script shows at a place of the run, after lines that made so many changes of the tree.
pub(crate) fn put_shown(
    out: &mut Vec<u8>,
    walk: &mut Walk,
    index: &mut PathIndex,
    run: &Run,
    place: usize,
    changes: usize,
    command: &Command,
) -> Result<(), NoMemory>
    requires stands { StandsIn walk.old run.now }
    requires index { IsIndexOf (take changes run.now.tree) index.old }
    requires formed { Each IsWellFormed run.now.entries }
    requires ahead { Each IsAhead run.now.repos }
    requires few { length run.now.repos < 2 ^ 32 }
    requires known { ShowsKnown (length run.now.repos) command.now }
    ensures text { OnOk result (out.new.items ≡ out.old.items ++ shown_by run.now place changes command.now) }
    ensures walk { OnOk result (StandsIn walk.new run.now) }
    ensures index { IsIndexOf (take changes run.now.tree) index.new }
{
    match command {
        Command::Shows { what } => put_showing(out, walk, index, run, place, changes, what)?,
        Command::Repo { .. }
        | Command::Does { .. }
        | Command::Damage { .. }
        | Command::Par { .. } => {}
    }
    Ok(())
}

/// Adds what is shown at a place of the run, after lines that made so many changes of the tree.
fn put_showing(
    out: &mut Vec<u8>,
    walk: &mut Walk,
    index: &mut PathIndex,
    run: &Run,
    place: usize,
    changes: usize,
    what: &Showing,
) -> Result<(), NoMemory>
    requires stands { StandsIn walk.old run.now }
    requires index { IsIndexOf (take changes run.now.tree) index.old }
    requires formed { Each IsWellFormed run.now.entries }
    requires ahead { Each IsAhead run.now.repos }
    requires few { length run.now.repos < 2 ^ 32 }
    requires known { IsOfKnown (length run.now.repos) what.now }
    ensures text { OnOk result (out.new.items ≡ out.old.items ++ show_text run.now place changes what.now) }
    ensures walk { OnOk result (StandsIn walk.new run.now) }
    ensures index { IsIndexOf (take changes run.now.tree) index.new }
{
    let alloc = *out.allocator();
    match what {
        Showing::Presence { key } => {
            walk.move_to(alloc, run, place)?;
            put_presence(out, run, walk, key)?;
        }
        Showing::Claims { repo, key } => {
            walk.move_to(alloc, run, place)?;
            put_claims(out, run, *repo, walk.branch(*repo), key)?;
        }
        Showing::Location { repo, key } => {
            walk.move_to(alloc, run, place)?;
            put_location(out, run, *repo, walk.branch(*repo), key)?;
        }
        Showing::Log { repo, file } => {
            walk.move_to(alloc, run, place)?;
            put_file(out, run, *repo, walk.branch(*repo), file)?;
        }
        Showing::Logs { repo } => {
            walk.move_to(alloc, run, place)?;
            put_files(out, run, *repo, walk.branch(*repo))?;
        }
        Showing::Numbers { repo, path } => {
            walk.move_to(alloc, run, place)?;
            put_numbers_for(out, run, *repo, path, walk.branch(*repo))?;
        }
        Showing::Level { repo, target } => {
            walk.move_to(alloc, run, place)?;
            put_level(out, run, *repo, *target, walk.branch(*repo))?;
        }
        Showing::Wants { repo, target, path } => {
            walk.move_to(alloc, run, place)?;
            walk.read_settings(alloc, *repo)?;
            let tree = first(run.tree.as_slice(), changes);
            let settings = walk.settings(*repo);
            put_wants_of(out, index, run, tree, *repo, *target, path, settings)?;
        }
        Showing::Row { repo, key } => {
            walk.move_to(alloc, run, place)?;
            put_row_at(out, run, walk, *repo, key)?;
        }
        Showing::Journal => put_journal_at(out, run, place, changes)?,
        Showing::Totals => {
            walk.move_to(alloc, run, place)?;
            put_totals(out, run, walk)?;
        }
        Showing::Plan { repo } => {
            walk.move_to(alloc, run, place)?;
            walk.read_settings(alloc, *repo)?;
            let tree = first(run.tree.as_slice(), changes);
            let settings = walk.settings(*repo);
            put_plan_of(out, index, run, tree, *repo, settings)?;
        }
    }
    Ok(())
}

/// Adds the journal of the entries before a place, and of so many changes of the tree.
fn put_journal_at(
    out: &mut Vec<u8>,
    run: &Run,
    place: usize,
    changes: usize,
) -> Result<(), AllocError>
    ensures { OnOk result (out.new.items ≡ out.old.items ++ journal_of run.now.repos (take changes run.now.tree) (take place run.now.entries)) }
{
    let tree = first(run.tree.as_slice(), changes);
    let entries = first(run.entries.as_slice(), place);
    put_journal(out, run.repos.as_slice(), tree, entries)?;
    Ok(())
}

fn put_presence(out: &mut Vec<u8>, run: &Run, walk: &Walk, key: &NamedKey) -> Result<(), NoMemory>
    requires { length run.now.repos < 2 ^ 32 }
    ensures { OnOk result ((place : ℕ) → StandsAt walk.now run.now place → out.new.items ≡ out.old.items ++ presence_text run.now place key.now) }
{
    out.extend_from_slice(b"presence ")?;
    put_key(out, &key.key, &key.path)?;
    out.push(b' ')?;
    let numbers = walk.possessors(*out.allocator(), run, &key.key)?;
    put_names(out, run.repos.as_slice(), b' ', &numbers)?;
    out.push(b'\n')?;
    Ok(())
}

/// Adds whether a repository wants and requires the content of a path of this tree, by these settings.
fn put_wants_of(
    out: &mut Vec<u8>,
    index: &mut PathIndex,
    run: &Run,
    tree: &[TreeMark],
    repo: u32,
    target: u32,
    path: &Text,
    settings: &Settings,
) -> Result<(), NoMemory>
    requires index { IsIndexOf tree.now index.old }
    requires known { target < length run.now.repos }
    ensures text { OnOk result (out.new.items ≡ out.old.items ++ wants_at run.now repo target path.now (settings_of settings.now) (with_marks [] tree.now)) }
    ensures index { IsIndexOf tree.now index.new }
{
    let alloc = *out.allocator();
    let Some(key) = index.key(alloc, tree, path)? else {
        return Ok(());
    };
    let paths = index.paths(alloc, tree, &key)?;
    put_wants(
        out,
        run,
        repo,
        target,
        path,
        settings,
        &key,
        paths.as_slice(),
    )
}

/// Adds the row of a key at a repository, as it is where the walk stands.
fn put_row_at(
    out: &mut Vec<u8>,
    run: &Run,
    walk: &Walk,
    repo: u32,
    key: &NamedKey,
) -> Result<(), NoMemory>
    requires { KnowsRow walk.now repo }
    ensures { OnOk result ((place : ℕ) → StandsAt walk.now run.now place → out.new.items ≡ out.old.items ++ row_text run.now repo key.now (row_at run.now place repo key.now.key)) }
{
    let row = walk.row(*out.allocator(), repo, &key.key)?;
    put_row(out, run, repo, key, &row)?;
    Ok(())
}

/// The first items, at most so many.
fn first<T>(items: &[T], count: usize) -> &[T]
    ensures { result.now ≡ take count items.now }
{
    let (first, _) = items.split_at(count.min(items.len()));
    first
}
