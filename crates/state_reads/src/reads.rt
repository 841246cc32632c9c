//! What the drops of one repository have read of its logs.
ghost use Rattle.std.specs.Prelude.{◌≡◌, IfOk, OnOk};
ghost use Rattle.std.specs.Option.{option_copied};
ghost use Rattle.run_data.specs.declared.entry.Entry.{Entry};
ghost use Rattle.node_model.specs.After.{first_state, state_after};
ghost use Rattle.node_model.specs.SetUp.{SetUp};
ghost use Rattle.node_model.specs.State.{State};
ghost use Rattle.state_files.specs.Files.{AreFilesOf, branch_of};
ghost use Rattle.state_works.specs.Jobs.{AreWorksOf};
ghost use Rattle.state_reads.specs.Known.{ids_of};
ghost use Rattle.state_reads.specs.Reads.{HadPaths, HasRoom, HaveReadAs, IsChangeFor, StaySame, reading_at};

use crate::begun::begun_drop;
use crate::kept::{Kept, add, keep_read, reading_in};
use crate::known::KnownLogs;
use crate::reading::read_for;
use annex_base::{NoMemory, RepoId, Text};
use run_data::EntryKind;
use state_files::Files;
use state_works::Jobs;
use std::alloc::Global;

/// What the drops of one repository have read of its logs at their first steps (own).
#[derive(Drop)]
pub struct Reads {
    alloc: Global,
    kept: Vec<Kept>,
}

impl Reads {
    /// No drop has read.
    pub fn new(alloc: Global) -> Reads
        ensures { (s : SetUp) → HaveReadAs s result (first_state s) }
    {
        Reads {
            alloc,
            kept: Vec::new(alloc),
        }
    }

    /// What the drop of the job of this number has read, where it is past its first step.
    pub fn reading(&self, job: u32) -> Option<&KnownLogs>
        ensures { option_copied result ≡ reading_at self.now job }
    {
        reading_in(&self.kept, job)
    }

    /// What the drop reads at whose first step an entry of this kind may stand, by the jobs and files before it, and room for that:
    /// the number of the repository, the identifiers of all, and the paths of the key of the entry's job. What was read stays.
    pub fn ready(
        &mut self,
        repo: u32,
        ids: &[RepoId],
        paths: &[Text],
        jobs: &Jobs,
        files: &mut Files,
        kind: &EntryKind,
    ) -> Result<Option<Kept>, NoMemory>
        ensures change { IfOk result (λ change. (s : SetUp) (st : State) → s.number ≡ repo → ids_of s ≡ ids.now → HadPaths s kind.now paths.now
            → AreWorksOf jobs.now st → AreFilesOf files.old st → IsChangeFor s st kind.now change) }
        ensures room { OnOk result (HasRoom self.new) }
        ensures same { StaySame self.old self.new }
        ensures files { branch_of files.new ≡ branch_of files.old }
    {
        self.kept.reserve(1)?;
        match begun_drop(jobs, kind) {
            Some(work) => Ok(Some(read_for(self.alloc, repo, ids, paths, work, files)?)),
            None => Ok(None),
        }
    }

    /// Takes note of an entry, by the jobs before it and what was made ready for it. It takes no memory, and looks up the job of
    /// each drop that has read.
    pub fn note(&mut self, jobs: &Jobs, change: Option<Kept>)
        requires { HasRoom self.old }
        ensures { (s : SetUp) (st : State) (e : Entry) → AreWorksOf jobs.now st → IsChangeFor s st e.kind change → HaveReadAs s self.old st → HaveReadAs s self.new (state_after s st e) }
    {
        keep_read(&mut self.kept, jobs);
        add(&mut self.kept, change);
    }
}
