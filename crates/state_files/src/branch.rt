//! How an entry changes the files of a branch.
ghost use Rattle.std.specs.Prelude.{◌≡◌, IfOk, OnOk, OnErr};
ghost use Rattle.annex_base.specs.Lists.{Each};
ghost use Rattle.node_model.specs.Files.{compact_lines};
ghost use Rattle.run_data.specs.Files.{file_path};
ghost use Rattle.run_model.specs.Logs.{branch_after, compact_file};
ghost use Rattle.state_files.specs.Changes.{LogsLines};
ghost use Rattle.union_merge.specs.Branch.{file_at, merged_file};
ghost use Rattle.union_merge.specs.LineSet.{IsLine};

use annex_base::{Line, NoMemory};
use branch_lines::current_lines;
use log_lines::LogKind;
use run_data::{Entry, EntryKind, LogFile};
use std::alloc::Global;
use union_merge::{Branch, LineSet, files_are_changed_alone, unions_have_the_lines_of_both};

/// Adds the lines that the entry logs, or takes off those that it compacts.
pub(crate) fn change(alloc: Global, branch: &mut Branch, entry: &Entry) -> Result<(), NoMemory>
    requires { LogsLines entry.now.kind entry.now.lines }
    ensures ok { OnOk result (branch.new ≡ branch_after branch.old entry.now.kind entry.now.lines) }
    ensures err { OnErr result (branch.new ≡ branch.old) }
{
    match &entry.kind {
        EntryKind::Log { file } => {
            let path = file.path(alloc)?;
            add_lines(alloc, branch, path.bytes(), entry.lines.as_slice())?;
        }
        EntryKind::Compact { file } => compact_one(alloc, branch, file)?,
        _ => {}
    }
    Ok(())
}

fn add_lines(
    alloc: Global,
    branch: &mut Branch,
    path: &[u8],
    lines: &[Line],
) -> Result<(), NoMemory>
    requires path { IsLine path.now }
    requires lines { Each IsLine lines.now }
    ensures ok { OnOk result (branch.new ≡ merged_file branch.old path.now lines.now) }
    ensures err { OnErr result (branch.new ≡ branch.old) }
{
    // For the proof: the files of a branch have their lines in order, and lines count once.
    let _ = branch.files();
    unions_have_the_lines_of_both();
    files_are_changed_alone();
    let set = LineSet::from_lines(copies(alloc, lines)?);
    branch.merge_file(path, &set)?;
    Ok(())
}

fn compact_one(alloc: Global, branch: &mut Branch, file: &LogFile) -> Result<(), NoMemory>
    ensures ok { OnOk result (branch.new ≡ compact_file file.now branch.old (file_at branch.old (file_path file.now))) }
    ensures err { OnErr result (branch.new ≡ branch.old) }
{
    // For the proof: the files of a branch have paths.
    let _ = branch.files();
    let path = file.path(alloc)?;
    let Some(lines) = branch.file(path.bytes()) else {
        return Ok(());
    };
    let kept = compacted(alloc, file.kind(), lines)?;
    branch.replace_file(path.bytes(), kept)?;
    Ok(())
}

fn compacted(alloc: Global, kind: Option<LogKind>, lines: &LineSet) -> Result<LineSet, NoMemory>
    ensures { IfOk result (λ s. s ≡ compact_lines kind lines.now) }
{
    match kind {
        Some(kind) => current_lines(alloc, kind, lines.lines()),
        None => lines.copy(),
    }
}

fn copies(alloc: Global, lines: &[Line]) -> Result<Vec<Line>, NoMemory>
    ensures { IfOk result (λ v. v.items ≡ lines.now) }
{
    let mut copies = Vec::new(alloc);
    for line in lines {
        copies.push(line.clone()?)?;
    }
    Ok(copies)
}
