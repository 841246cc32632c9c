//! What a repository is about: its jobs, what their drops have read, and the lines that it owes.
ghost use Rattle.std.specs.Prelude.{◌≡◌, ◌≤◌, ◌<◌, ◌+◌, ◌^◌, ℕ, option_copied, option_map, IfOk, OnOk};
ghost use Rattle.node_model.specs.After.{first_state, state_after};
ghost use Rattle.node_model.specs.Around.{around};
ghost use Rattle.node_model.specs.SetUp.{SetUp};
ghost use Rattle.node_model.specs.State.{State};
ghost use Rattle.run_data.specs.declared.entry.EntryKind.TheVariants.{Talk};
ghost use Rattle.state_files.specs.Files.{AreFilesOf, branch_of};
ghost use Rattle.state_jobs.specs.Around.{AreEndedBy};
ghost use Rattle.state_jobs.specs.Works.{work_of};
ghost use Rattle.state_owed.specs.Changes.{AddsWithin, talker};
ghost use Rattle.state_rows.specs.Rows.{AreRowsOf};
ghost use Rattle.state_works.specs.Jobs.{IsChangeOf, works_of};
ghost use Rattle.step_state.specs.Peers.{HasPeersIn};
ghost use Rattle.step_state.specs.Places.{IsPlaceOf, count_in};
ghost use Rattle.step_state.specs.Working.{AreBelow, AreWithin, AreWorkingOf, HasRoom, StaySame};
ghost use Rattle.step_state.specs.Changes.{IsReadyFor, IsSoFor};

use crate::place::Place;
use annex_base::{NoMemory, Text};
use run_data::{Entry, EntryKind};
use state_ends::Ends;
use state_files::Files;
use state_jobs::Work;
use state_owed::{Owed, OwedChange};
use state_reads::{Kept, Reads};
use state_rows::Rows;
use state_works::{JobChange, Jobs};
use std::alloc::Global;

/// The running jobs of one repository, what their drops have read, and the lines that it owes (own).
#[derive(Drop)]
pub struct Working {
    pub jobs: Jobs,
    pub reads: Reads,
    pub owed: Owed,
}

/// What an entry changes of them.
#[derive(Drop)]
pub struct WorkingChange {
    pub jobs: JobChange,
    pub kept: Option<Kept>,
    pub owed: OwedChange,
}

impl Working {
    pub(crate) fn new(alloc: Global) -> Working
        ensures working { (s : SetUp) → AreWorkingOf result s (first_state s) }
        ensures below { AreBelow 1 result }
        ensures within { (count : ℕ) → AreWithin count result }
    {
        Working {
            jobs: Jobs::new(alloc),
            reads: Reads::new(alloc),
            owed: Owed::new(alloc),
        }
    }

    /// What an entry will change, by the log files before it and the paths of the key of its job, and room for it. They stay.
    pub(crate) fn ready(
        &mut self,
        place: &Place,
        files: &mut Files,
        paths: &[Text],
        entry: &Entry,
    ) -> Result<WorkingChange, NoMemory>
        requires time { entry.now.time ≤ 1000000000000 }
        requires within { AreWithin (count_in place.now) self.old }
        ensures change { IfOk result (IsReadyFor place.now files.old paths.now entry.now self.old) }
        ensures room { OnOk result (HasRoom self.new) }
        ensures same { StaySame self.old self.new }
        ensures files { branch_of files.new ≡ branch_of files.old }
    {
        let number = place.number();
        let ids = place.ids();
        let clock = place.wall(entry.time);
        let jobs = self.jobs.ready(entry)?;
        let kept = self
            .reads
            .ready(number, ids, paths, &self.jobs, files, &entry.kind)?;
        let job = talker(&self.jobs, &entry.kind);
        let branch = files.branch();
        let owed = self
            .owed
            .ready(number, ids, branch, clock, entry, job, &jobs.talk.heard)?;
        Ok(WorkingChange { jobs, kept, owed })
    }

    /// Takes note of an entry, by what was made ready for it, the rows before it and the ends after it.
    pub(crate) fn note(
        &mut self,
        place: &Place,
        rows: &Rows,
        ends: &Ends,
        entry: &Entry,
        change: WorkingChange,
    )
        requires room { HasRoom self.old }
        requires below { AreBelow (2 ^ 127) self.old }
        requires change { IsChangeOf (works_of self.old.jobs) entry.now change.jobs }
        ensures working { (s : SetUp) (st : State) → IsPlaceOf place.now s → AreRowsOf rows.now st → AreEndedBy (around s st) entry.now ends.now
            → IsSoFor s st entry.now change → AreWorkingOf self.old s st → AreWorkingOf self.new s (state_after s st entry.now) }
        ensures below { (limit : ℕ) → 2 ^ 64 ≤ limit → AreBelow limit self.old → AreBelow (limit + 2 ^ 64) self.new }
        ensures within { (s : SetUp) (st : State) → AreRowsOf rows.now st → AreEndedBy (around s st) entry.now ends.now
            → HasPeersIn (count_in place.now) entry.now → AddsWithin (count_in place.now) change.owed
            → AreWithin (count_in place.now) self.old → AreWithin (count_in place.now) self.new }
    {
        let WorkingChange { jobs, kept, owed } = change;
        self.reads.note(&self.jobs, kept);
        self.jobs.note(place.number(), rows, ends, entry, jobs);
        self.owed.note(owed);
    }
}

/// The job that talks by an entry of this kind, if one does.
fn talker<'a>(jobs: &'a Jobs, kind: &EntryKind) -> Option<&'a Work>
    ensures { option_map work_of (option_copied result) ≡ talker (works_of jobs.now) kind.now }
{
    match kind {
        EntryKind::Talk { job } => talking(jobs, *job),
        _ => None,
    }
}

fn talking(jobs: &Jobs, job: Option<u32>) -> Option<&Work>
    ensures { option_map work_of (option_copied result) ≡ talker (works_of jobs.now) (Talk job) }
{
    match job {
        Some(number) => jobs.job(number),
        None => None,
    }
}
