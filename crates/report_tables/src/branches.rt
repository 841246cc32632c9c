//! The branches of a run's repositories, as the entries so far change them.
ghost use Rattle.std.specs.Prelude.{◌≡◌, ◌<◌, ℕ, List, [], ◌∷◌, length, IfOk, OnOk, OnErr};
ghost use Rattle.annex_base.specs.Lists.{Each};
ghost use Rattle.union_merge.specs.LineSet.{IsLine};
ghost use Rattle.union_merge.specs.Branch.{file_at, merged_file};
ghost use Rattle.run_data.specs.declared.entry.Entry.{Entry};
ghost use Rattle.run_data.specs.Files.{file_path};
ghost use Rattle.run_model.specs.Logs.{branch, branch_after, compact_file};
ghost use Rattle.node_model.specs.Files.{compact_lines};
ghost use Rattle.report_tables.specs.Branches.{HasBranches, LogsLines};

use annex_base::{Line, NoMemory};
use log_lines::{LogKind, compact};
use run_data::{Entry, EntryKind, LogFile};
use std::alloc::Global;
use union_merge::{Branch, LineSet, files_are_changed_alone, unions_have_the_lines_of_both};

/// The branches of a run's repositories after some first entries of the run.
#[derive(Debug, Drop)]
pub(crate) struct Branches {
    branches: Vec<Branch>,
    alloc: Global,
}

impl Branches {
    /// Before the first entry no branch has a file.
    pub(crate) fn new(alloc: Global, repositories: usize) -> Result<Branches, NoMemory>
        ensures { IfOk result (λ branches. HasBranches branches repositories []) }
    {
        let mut branches = Vec::new(alloc);
        for _ in 0..repositories {
            branches.push(Branch::new(alloc))?;
        }
        Ok(Branches { branches, alloc })
    }

    /// The branch of the repository of this number.
    pub(crate) fn branch(&self, repo: u32) -> &Branch
        requires { repo < length self.now.branches.items }
        ensures { (repositories : ℕ) (past : List Entry) → HasBranches self.now repositories past → result.now ≡ branch past repo }
    {
        &self.branches[repo as usize]
    }

    /// Takes note of what one more entry changes: lines that are added to a file of one of the repositories, or a file
    /// that is compacted. Without memory the branches stay as they are.
    pub(crate) fn add(&mut self, entry: &Entry) -> Result<(), NoMemory>
        requires { LogsLines entry.now.kind entry.now.lines }
        ensures ok { OnOk result ((repositories : ℕ) (past : List Entry) → HasBranches self.old repositories past → HasBranches self.new repositories (entry.now ∷ past)) }
        ensures err { OnErr result (self.new.branches.items ≡ self.old.branches.items) }
    {
        let Some(repo) = entry.repo else {
            return Ok(());
        };
        let index = repo as usize;
        if index < self.branches.len() {
            change(self.alloc, &mut self.branches[index], entry)?;
        }
        Ok(())
    }
}

fn change(alloc: Global, branch: &mut Branch, entry: &Entry) -> Result<(), NoMemory>
    requires { LogsLines entry.now.kind entry.now.lines }
    ensures ok { OnOk result (branch.new ≡ branch_after branch.old entry.now.kind entry.now.lines) }
    ensures err { OnErr result (branch.new ≡ branch.old) }
{
    match &entry.kind {
        EntryKind::Log { file } => {
            let path = file.path(alloc)?;
            add_lines(alloc, branch, path.bytes(), entry.lines.as_slice())?;
        }
        EntryKind::Compact { file } => compact_file(alloc, branch, file)?,
        _ => {}
    }
    Ok(())
}

fn add_lines(
    alloc: Global,
    branch: &mut Branch,
    path: &[u8],
    lines: &[Line],
) -> Result<(), NoMemory>
    requires path { IsLine path.now }
    requires lines { Each IsLine lines.now }
    ensures ok { OnOk result (branch.new ≡ merged_file branch.old path.now lines.now) }
    ensures err { OnErr result (branch.new ≡ branch.old) }
{
    // For the proof: the files of a branch have their lines in order, and lines count once.
    let _ = branch.files();
    unions_have_the_lines_of_both();
    files_are_changed_alone();
    let set = LineSet::from_lines(copies(alloc, lines)?);
    branch.merge_file(path, &set)?;
    Ok(())
}

fn compact_file(alloc: Global, branch: &mut Branch, file: &LogFile) -> Result<(), NoMemory>
    ensures ok { OnOk result (branch.new ≡ compact_file file.now branch.old (file_at branch.old (file_path file.now))) }
    ensures err { OnErr result (branch.new ≡ branch.old) }
{
    // For the proof: the files of a branch have paths.
    let _ = branch.files();
    let path = file.path(alloc)?;
    let Some(lines) = branch.file(path.bytes()) else {
        return Ok(());
    };
    let kept = compacted(alloc, file.kind(), lines)?;
    branch.replace_file(path.bytes(), kept)?;
    Ok(())
}

fn compacted(alloc: Global, kind: Option<LogKind>, lines: &LineSet) -> Result<LineSet, NoMemory>
    ensures { IfOk result (λ s. s ≡ compact_lines kind lines.now) }
{
    let Some(kind) = kind else {
        return lines.copy();
    };
    // A law, for the proof: a set that is put in order stays as it is.
    unions_have_the_lines_of_both();
    let lines = copies(alloc, lines.lines())?;
    Ok(LineSet::from_lines(compact(alloc, kind, lines)?))
}

fn copies(alloc: Global, lines: &[Line]) -> Result<Vec<Line>, NoMemory>
    ensures { IfOk result (λ v. v.items ≡ lines.now) }
{
    let mut copies = Vec::new(alloc);
    for line in lines {
        copies.push(line.clone()?)?;
    }
    Ok(copies)
}
