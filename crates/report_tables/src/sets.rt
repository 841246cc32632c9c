//! The settings of a run's repositories, each read where it is asked for after its branch changed.
ghost use Rattle.std.specs.Prelude.{◌≡◌, ◌<◌, ℕ, List, ◌∷◌, Some, false, length, slice_get, IfOk, OnOk};
ghost use Rattle.union_merge.specs.Branch.{Files, lines_at};
ghost use Rattle.trust_groups.specs.Reads.{Indices};
ghost use Rattle.trust_groups.specs.Settings.{settings};
ghost use Rattle.trust_groups.specs.View.{settings_of};
ghost use Rattle.run_data.specs.declared.entry.Entry.{Entry};
ghost use Rattle.run_model.specs.Logs.{branch, branch_after};
ghost use Rattle.report_tables.specs.Sets.{HasSets};

use annex_base::NoMemory;
use run_data::{Entry, EntryKind};
use std::alloc::Global;
use trust_groups::Settings;
use union_merge::Branch;

/// What the branches of a run's repositories set after some first entries of the run, as far as it was read.
#[derive(Debug, Drop)]
pub(crate) struct Sets {
    read: Vec<Option<Settings>>,
}

impl Sets {
    /// Nothing is read.
    pub(crate) fn new(alloc: Global, repositories: usize) -> Result<Sets, NoMemory>
        ensures { IfOk result (λ sets. (past : List Entry) → HasSets sets repositories past) }
    {
        let mut read = Vec::new(alloc);
        for _ in 0..repositories {
            read.push(None)?;
        }
        Ok(Sets { read })
    }

    /// Forgets what the branch of one more entry's repository set, where the entry changes the branch.
    pub(crate) fn add(&mut self, entry: &Entry)
        ensures { (repositories : ℕ) (past : List Entry) → HasSets self.old repositories past → HasSets self.new repositories (entry.now ∷ past) }
    {
        let Some(repo) = entry.repo else {
            return;
        };
        let index = repo as usize;
        if index < self.read.len() && changes_branch(&entry.kind) {
            self.read[index] = None;
        }
    }

    /// Reads what these files, the branch of the repository of this number, set, unless they were read since the branch changed.
    pub(crate) fn read(&mut self, alloc: Global, repo: u32, files: &Branch) -> Result<(), NoMemory>
        requires { repo < length self.old.read.items }
        ensures has { OnOk result ((repositories : ℕ) (past : List Entry) → HasSets self.old repositories past → files.now ≡ branch past repo → HasSets self.new repositories past) }
        ensures there { OnOk result ((indices : Indices) × (slice_get self.new.read.items repo ≡ Some (Some indices))) }
    {
        let index = repo as usize;
        if self.read[index].is_none() {
            let settings = Settings::read(alloc, files)?;
            self.read[index] = Some(settings);
        }
        Ok(())
    }

    /// What was read for the repository of this number.
    pub(crate) fn settings(&self, repo: u32) -> &Settings
        requires { (indices : Indices) × (slice_get self.now.read.items repo ≡ Some (Some indices)) }
        ensures { (repositories : ℕ) (past : List Entry) → HasSets self.now repositories past → settings_of result.now ≡ settings (lines_at (branch past repo)) }
    {
        match &self.read[repo as usize] {
            Some(settings) => settings,
            None => unreachable!(),
        }
    }
}

/// Whether an entry of this kind may change a branch.
fn changes_branch(kind: &EntryKind) -> bool
    ensures { result ≡ false → (files : Files) (lines : List (List ℕ)) → branch_after files kind.now lines ≡ files }
{
    matches!(kind, EntryKind::Log { .. } | EntryKind::Compact { .. })
}
