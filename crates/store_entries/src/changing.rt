//! Changes of a file of a branch, and what undoes them.
ghost use Rattle.std.specs.Prelude.{◌≡◌, IfOk, OnOk, OnErr, is_some, IsSome};
ghost use Rattle.union_merge.specs.Branch.{file_at, lines_at, merged_file, with_back, with_file};
ghost use Rattle.union_merge.specs.LineSet.{IsLine, text_of};
ghost use Rattle.store_entries.specs.Changes.{AddsNew, AreNew, changed_file, after_undo};

use annex_base::NoMemory;
use std::alloc::Global;
use union_merge::{Branch, LineSet, files_are_changed_alone, new_lines_are_taken_off_again};

/// What becomes of a file of the branch (own).
#[derive(Drop)]
pub enum Change<'a> {
    /// It gets these lines, which it lacks, beside its own.
    Add(&'a LineSet),
    /// It has these lines in place of its own.
    Replace(LineSet),
}

/// What makes a changed file as it was.
#[derive(Drop)]
pub(crate) enum Undo<'a> {
    /// These lines are taken off.
    TakeOff(&'a LineSet),
    /// It had these lines, or wasn't there.
    PutBack(Option<LineSet>),
}

/// What a file of a branch has, as a copy.
fn file_of(branch: &Branch, path: &[u8]) -> Result<Option<LineSet>, NoMemory>
    ensures { IfOk result (λ o. o ≡ file_at branch.now path.now) }
{
    match branch.file(path) {
        Some(lines) => Ok(Some(lines.copy()?)),
        None => Ok(None),
    }
}

/// Gives a file of the branch these lines, and answers what gives it back as it was.
fn replaced(branch: &mut Branch, path: &[u8], all: LineSet) -> Result<Option<LineSet>, NoMemory>
    requires { IsLine path.now }
    ensures ok { OnOk result (branch.new ≡ with_file branch.old path.now all) }
    ensures there { OnOk result (IsSome (file_at branch.new path.now)) }
    ensures back { IfOk result (λ was. with_back branch.new path.now was ≡ branch.old) }
    ensures err { OnErr result (branch.new ≡ branch.old) }
{
    // For the proof: a law, by which a file that is put back leaves the branch as it was, and that its files are in order.
    files_are_changed_alone();
    let _ = branch.files();
    let was = file_of(branch, path)?;
    branch.replace_file(path, all)?;
    Ok(was)
}

fn has_file(branch: &Branch, path: &[u8]) -> bool
    ensures { result ≡ is_some (file_at branch.now path.now) }
{
    branch.file(path).is_some()
}

/// Adds lines that a file of the branch lacks, and answers what takes them off again.
fn added<'a>(branch: &mut Branch, path: &[u8], new: &'a LineSet) -> Result<Undo<'a>, NoMemory>
    requires line { IsLine path.now }
    requires new { AreNew new.now (lines_at branch.old path.now) }
    ensures ok { OnOk result (branch.new ≡ merged_file branch.old path.now new.now) }
    ensures there { OnOk result (IsSome (file_at branch.new path.now)) }
    ensures undo { IfOk result (λ undo. after_undo branch.new path.now undo ≡ branch.old) }
    ensures err { OnErr result (branch.new ≡ branch.old) }
{
    // For the proof: laws, by which the branch is then as before, and that its files are in order.
    files_are_changed_alone();
    new_lines_are_taken_off_again();
    let _ = branch.files();
    let is_there = has_file(branch, path);
    branch.merge_file(path, new)?;
    if is_there {
        Ok(Undo::TakeOff(new))
    } else {
        Ok(Undo::PutBack(None))
    }
}

/// Changes a file of the branch, and answers what undoes it.
pub(crate) fn changed<'a>(
    branch: &mut Branch,
    path: &[u8],
    change: Change<'a>,
) -> Result<Undo<'a>, NoMemory>
    requires line { IsLine path.now }
    requires new { AddsNew change (lines_at branch.old path.now) }
    ensures ok { OnOk result (branch.new ≡ changed_file branch.old path.now change.entry) }
    ensures there { OnOk result (IsSome (file_at branch.new path.now)) }
    ensures undo { IfOk result (λ undo. after_undo branch.new path.now undo ≡ branch.old) }
    ensures err { OnErr result (branch.new ≡ branch.old) }
{
    match change {
        Change::Add(new) => added(branch, path, new),
        Change::Replace(all) => {
            let was = replaced(branch, path, all)?;
            Ok(Undo::PutBack(was))
        }
    }
}

/// Makes a changed file as it was. It takes no memory.
pub(crate) fn put_back(branch: &mut Branch, path: &[u8], undo: Undo<'_>)
    requires line { IsLine path.now }
    requires there { IsSome (file_at branch.old path.now) }
    ensures { branch.new ≡ after_undo branch.old path.now undo.entry }
{
    match undo {
        Undo::TakeOff(lines) => branch.take_lines_off(path, lines),
        Undo::PutBack(was) => branch.put_back(path, was),
    }
}

/// The text of a file of the branch.
pub(crate) fn text_at(alloc: Global, branch: &Branch, path: &[u8]) -> Result<Vec<u8>, NoMemory>
    ensures { IfOk result (λ v. v.items ≡ text_of (lines_at branch.now path.now)) }
{
    match branch.file(path) {
        Some(lines) => lines.to_bytes(),
        None => Ok(Vec::new(alloc)),
    }
}
