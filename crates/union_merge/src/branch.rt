//! A branch: its files by path.
ghost use Rattle.std.specs.Prelude.{◌≡◌, List, ℕ, [], not, None, IsSome, IsTrue, IfOk, OnOk, OnErr};
ghost use Rattle.std.specs.BTreeMap.{insert_entry};
ghost use Rattle.std.specs.List.Sorted.{IsStrictlySortedBy};
ghost use Rattle.std.specs.Map.{keys_of};
ghost use Rattle.annex_base.specs.ByteOrder.{text_cmp, path_cmp};
ghost use Rattle.std.specs.Option.{option_copied};
ghost use Rattle.union_merge.specs.LineSet.{IsLine, difference};
ghost use Rattle.union_merge.specs.Branch.{IsBranch, file_at, lines_at, with_back, with_file, without_file, merged_file};
ghost use Rattle.union_merge.specs.FileView.{files_of};

use crate::line_set::LineSet;
use annex_base::{NoMemory, Text};
use std::alloc::Global;
use std::collections::BTreeMap;
use std::collections::btree_map::Iter;
use std::marker::Model;

/// The files of a git-annex branch, each a set of lines (git-annex internals: branch files). Contracts see it as the
/// list of the files in byte order of path. A path has a byte or more, and no newline.
#[derive(Debug, Drop)]
pub struct Branch {
    files: BTreeMap<Vec<u8>, LineSet>,
    alloc: Global,
}

impl Model for Branch {
    ghost use Rattle.std.specs.Prelude.{List, ℕ};
    ghost use Rattle.union_merge.specs.Branch.{IsBranch};
    ghost use Rattle.union_merge.specs.FileView.{files_of};

    ghost Value = { List (List ℕ × List (List ℕ)) };

    ghost view = { λ b. files_of b.files.entries };

    ghost invariant = { λ b. IsBranch (files_of b.files.entries) };
}

impl Branch {
    /// A branch without files.
    pub fn new(alloc: Global) -> Branch
        ensures { result ≡ [] }
    {
        Branch {
            files: BTreeMap::new(alloc),
            alloc,
        }
    }

    /// Adds lines to those of a file, which may be new. Only lines that the file lacks are copied.
    pub fn merge_file(&mut self, path: &[u8], lines: &LineSet) -> Result<(), NoMemory>
        requires { IsLine path.now }
        ensures ok { OnOk result (self.new ≡ merged_file self.old path.now lines.now) }
        ensures err { OnErr result (self.new ≡ self.old) }
    {
        // For the proof: the lines are in order, which the branch keeps.
        let _ = lines.lines();
        if merge_into(&mut self.files, path, lines)? {
            return Ok(());
        }
        let lines = lines.copy()?;
        self.replace_file(path, lines)?;
        Ok(())
    }

    /// Gives a file these lines, in place of those that it may have.
    pub fn replace_file(&mut self, path: &[u8], lines: LineSet) -> Result<(), NoMemory>
        requires { IsLine path.now }
        ensures ok { OnOk result (self.new ≡ with_file self.old path.now lines) }
        ensures err { OnErr result (self.new ≡ self.old) }
    {
        // For the proof: the lines are in order, which the branch keeps.
        let _ = lines.lines();
        let copy = Vec::from_slice(self.alloc, path)?;
        put(&mut self.files, copy, lines)?;
        Ok(())
    }

    /// Gives a file that is there what it had before: these lines, or no place in the branch. It takes no memory.
    pub fn put_back(&mut self, path: &[u8], was: Option<LineSet>)
        requires line { IsLine path.now }
        requires there { IsSome (file_at self.old path.now) }
        ensures { self.new ≡ with_back self.old path.now was }
    {
        match was {
            Some(lines) => self.set_file(path, lines),
            None => self.take_off(path),
        }
    }

    /// Takes lines off a file that is there. It takes no memory.
    pub fn take_lines_off(&mut self, path: &[u8], lines: &LineSet)
        requires line { IsLine path.now }
        requires there { IsSome (file_at self.old path.now) }
        ensures { self.new ≡ with_file self.old path.now (difference (lines_at self.old path.now) lines.now) }
    {
        take_lines(&mut self.files, path, lines);
    }

    fn set_file(&mut self, path: &[u8], lines: LineSet)
        requires line { IsLine path.now }
        requires there { IsSome (file_at self.old path.now) }
        ensures { self.new ≡ with_file self.old path.now lines }
    {
        // For the proof: the lines are in order, which the branch keeps.
        let _ = lines.lines();
        set_lines(&mut self.files, path, lines);
    }

    fn take_off(&mut self, path: &[u8])
        ensures { self.new ≡ without_file self.old path.now }
    {
        take_off(&mut self.files, path);
    }

    /// The lines of a file.
    pub fn file(&self, path: &[u8]) -> Option<&LineSet>
        ensures { option_copied result ≡ file_at self.now path.now }
    {
        self.files.get(path)
    }

    /// The files in byte order of path.
    pub fn files(&self) -> Iter<'_, Vec<u8>, LineSet>
        ensures value { files_of result ≡ self.now }
        ensures branch { IsBranch self.now }
    {
        self.files.iter()
    }

    /// The paths of the files, in byte order.
    pub fn paths(&self) -> Result<Vec<Text>, NoMemory>
        ensures { IfOk result (λ v. v.items ≡ keys_of self.now) }
    {
        paths_in(self.alloc, &self.files)
    }
}

// Adds lines to those of a file that is there, and answers whether it is.
fn merge_into(
    files: &mut BTreeMap<Vec<u8>, LineSet>,
    path: &[u8],
    lines: &LineSet,
) -> Result<bool, NoMemory>
    requires { IsStrictlySortedBy text_cmp (keys_of (files_of files.old.entries)) }
    ensures there { IfOk result (λ there. IsTrue there → files_of files.new.entries ≡ merged_file (files_of files.old.entries) path.now lines.now) }
    ensures missing { IfOk result (λ there. IsTrue (not there) → (file_at (files_of files.old.entries) path.now ≡ None) × (files_of files.new.entries ≡ files_of files.old.entries)) }
    ensures err { OnErr result (files_of files.new.entries ≡ files_of files.old.entries) }
{
    let Some(own) = files.get_mut(path) else {
        return Ok(false);
    };
    own.merge(lines)?;
    Ok(true)
}

fn put(
    files: &mut BTreeMap<Vec<u8>, LineSet>,
    path: Vec<u8>,
    lines: LineSet,
) -> Result<(), NoMemory>
    ensures ok { OnOk result (files.new.entries ≡ insert_entry path_cmp files.old.entries path lines) }
    ensures err { OnErr result (files.new.entries ≡ files.old.entries) }
{
    files.insert(path, lines)?;
    Ok(())
}

// Gives a file that is there these lines.
fn set_lines(files: &mut BTreeMap<Vec<u8>, LineSet>, path: &[u8], lines: LineSet)
    requires order { IsStrictlySortedBy text_cmp (keys_of (files_of files.old.entries)) }
    requires there { IsSome (file_at (files_of files.old.entries) path.now) }
    ensures { files_of files.new.entries ≡ with_file (files_of files.old.entries) path.now lines }
{
    let Some(own) = files.get_mut(path) else {
        unreachable!();
    };
    *own = lines;
}

// Takes lines off a file that is there.
fn take_lines(files: &mut BTreeMap<Vec<u8>, LineSet>, path: &[u8], lines: &LineSet)
    requires order { IsStrictlySortedBy text_cmp (keys_of (files_of files.old.entries)) }
    requires there { IsSome (file_at (files_of files.old.entries) path.now) }
    ensures { files_of files.new.entries ≡ with_file (files_of files.old.entries) path.now (difference (lines_at (files_of files.old.entries) path.now) lines.now) }
{
    let Some(own) = files.get_mut(path) else {
        unreachable!();
    };
    own.take_off(lines);
}

fn take_off(files: &mut BTreeMap<Vec<u8>, LineSet>, path: &[u8])
    ensures { files_of files.new.entries ≡ without_file (files_of files.old.entries) path.now }
{
    files.remove(path);
}

fn paths_in(alloc: Global, files: &BTreeMap<Vec<u8>, LineSet>) -> Result<Vec<Text>, NoMemory>
    ensures { IfOk result (λ v. v.items ≡ keys_of (files_of files.now.entries)) }
{
    let mut paths = Vec::new(alloc);
    for path in files.keys() {
        paths.push(Text::new(alloc, path)?)?;
    }
    Ok(paths)
}
