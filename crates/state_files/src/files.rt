//! The log files of one running repository.
ghost use Rattle.std.specs.Prelude.{◌≡◌, false};
ghost use Rattle.std.specs.Option.{ForSome};
ghost use Rattle.state_files.specs.Changes.{LeavesFiles};
ghost use Rattle.trust_groups.specs.Settings.{settings};
ghost use Rattle.trust_groups.specs.View.{settings_of};
ghost use Rattle.union_merge.specs.Branch.{lines_at};

use crate::branch::change;
use annex_base::NoMemory;
use run_data::{Entry, EntryKind};
use std::alloc::Global;
use trust_groups::Settings;
use union_merge::{Branch, files_are_changed_alone};

/// The log files of one repository, and what they set, where that was read since they changed (own).
#[derive(Debug, Drop)]
pub struct Files {
    alloc: Global,
    branch: Branch,
    read: Option<Settings>,
    ghost current: { ForSome read (λ s. settings_of s ≡ settings (lines_at branch)) },
}

impl Files {
    ghost use Rattle.std.specs.Prelude.{OnOk, OnErr};
    ghost use Rattle.node_model.specs.After.{first_state, state_after};
    ghost use Rattle.node_model.specs.SetUp.{SetUp};
    ghost use Rattle.node_model.specs.State.{State};
    ghost use Rattle.state_files.specs.Changes.{LogsLines};
    ghost use Rattle.state_files.specs.Files.{AreFilesOf, HaveBeenRead, branch_of};

    /// No file.
    pub fn new(alloc: Global) -> Files
        ensures { (s : SetUp) → AreFilesOf result (first_state s) }
    {
        Files {
            alloc,
            branch: Branch::new(alloc),
            read: None,
        }
    }

    /// Takes note of an entry. Without memory the files stay.
    pub fn note(&mut self, entry: &Entry) -> Result<(), NoMemory>
        requires lines { LogsLines entry.now.kind entry.now.lines }
        ensures ok { OnOk result ((s : SetUp) (st : State) → AreFilesOf self.old st → AreFilesOf self.new (state_after s st entry.now)) }
        ensures err { OnErr result (branch_of self.new ≡ branch_of self.old) }
    {
        // A law, for the proof: a file that is given lines has these, and the others have theirs.
        files_are_changed_alone();
        if changes_files(&entry.kind) {
            self.read = None;
            change(self.alloc, &mut self.branch, entry)?;
        }
        Ok(())
    }

    /// The files.
    pub fn branch(&self) -> &Branch
        ensures { result.now ≡ branch_of self.now }
    {
        &self.branch
    }

    /// Reads what the files set, unless it was read since they changed.
    pub fn read(&mut self) -> Result<(), NoMemory>
        ensures read { OnOk result (HaveBeenRead self.new) }
        ensures same { branch_of self.new ≡ branch_of self.old }
    {
        if self.read.is_none() {
            let settings = Settings::read(self.alloc, &self.branch)?;
            self.read = Some(settings);
        }
        Ok(())
    }

    /// What the files set.
    pub fn settings(&self) -> &Settings
        requires { HaveBeenRead self.now }
        ensures { settings_of result.now ≡ settings (lines_at (branch_of self.now)) }
    {
        match &self.read {
            Some(settings) => settings,
            None => unreachable!(),
        }
    }
}

/// Whether an entry of this kind may change a file.
fn changes_files(kind: &EntryKind) -> bool
    ensures { result ≡ false → LeavesFiles kind.now }
{
    matches!(kind, EntryKind::Log { .. } | EntryKind::Compact { .. })
}
